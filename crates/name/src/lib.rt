// Names of cells: a face letter, N to S, and a digit 0 to 8 for each resolution.
#![tactic(auto)]

ghost use Rattle.std.specs.Prelude.{◌≡◌, not, ◌∷◌, ◌++◌, ◌+◌, ◌≤◌, ◌<◌, length, take, drop};
ghost use Rattle.logic.specs.Refusal.{refuse, given};
ghost use Rattle.ternary.specs.Digits.{value, digits};
ghost use Rattle.cell.specs.Cell.{IsArrangement};
ghost use Rattle.code.specs.Code.{coded, cell_of};
ghost use Rattle.name.specs.Name.{all_digits, first_letter, digits_in, digit_bytes, name_refusal, name_code, name_of, code_name_refusal, named, name_in};

use cell::Arrangement;

fn wide(x: u8) -> u64
    ensures { result ≡ x }
{
    x as u64
}

// The path that the digits after the letter stand for: 3 where one is no digit.
fn read_path(name: &[u8]) -> Result<u64, u64>
    requires { (0 < length name.now) × (length name.now ≤ 16) }
    ensures { result ≡ coded (refuse (not (all_digits (drop 1 name.now))) 3) (value 9 (digits_in name.now)) }
{
    let mut path: u64 = 0;
    for &b in &name[1..] {
        if b < b'0' {
            return Err(3);
        }
        if b > b'8' {
            return Err(3);
        }
        path = path * 9 + wide(b - b'0');
    }
    Ok(path)
}

// Whether the first byte is a face letter.
fn first_letter(name: &[u8]) -> bool
    ensures { result ≡ first_letter name.now }
{
    if name.len() == 0 {
        return false;
    }
    let letter = name[0];
    if letter < b'N' {
        return false;
    }
    letter <= b'S'
}

// The code of the cell that some bytes name, in an arrangement: 2, 1 or 3 where they name none.
pub fn name_code(arrangement: Arrangement, name: &[u8]) -> Result<u64, u64>
    requires { IsArrangement arrangement }
    ensures { result ≡ coded (name_refusal name.now) (name_code arrangement name.now) }
{
    if name.len() > 16 {
        return Err(2);
    }
    if !first_letter(name) {
        return Err(1);
    }
    let Ok(path) = read_path(name) else {
        return Err(3);
    };
    let face = wide(name[0] - b'N');
    let resolution = (name.len() - 1) as u64;
    Ok(code::code_at(arrangement, face, resolution, path))
}

// The last `count` digits of a path, as bytes after the first one of `name`.
fn put_digits(name: &mut [u8], count: usize, path: u64)
    requires { count < length name.old }
    ensures { name.new ≡ take 1 name.old ++ (digit_bytes (digits 9 count path) ++ drop (count + 1) name.old) }
{
    let mut p = path;
    for place in (1..=count).rev() {
        name[place] = b'0' + (p % 9) as u8;
        p = p / 9;
    }
}

// A face letter and the last `count` digits of a path, in front of `name`.
fn put_name(name: &mut [u8], face: u64, count: usize, path: u64)
    requires { (count < length name.old) × (face ≤ 5) }
    ensures { name.new ≡ (78 + face) ∷ (digit_bytes (digits 9 count path) ++ drop (count + 1) name.old) }
{
    put_digits(name, count, path);
    name[0] = b'N' + face as u8;
}

// The name of the cell of a code, into `name`: 4 where it is no cell's, 8 where the name is longer than the room.
pub fn code_name(code: u64, name: &mut [u8]) -> Result<u64, u64>
    ensures value { result ≡ named (code_name_refusal code (length name.old)) (length (name_of (cell_of code))) }
    ensures name_after { name.new ≡ given (code_name_refusal code (length name.old)) (name_in code name.old) name.old }
{
    let parts = code::parts_of(code)?;
    let count = parts.resolution as usize;
    if name.len() <= count {
        return Err(8);
    }
    put_name(name, parts.face, count, parts.path);
    Ok(parts.resolution + 1)
}
