// A list of codes with one more: nine siblings are merged upwards as they come, so the list has no more room than the fewest cells of what came.
#![tactic(auto)]

ghost use Rattle.std.specs.Prelude.{◌≡◌, true, ◌*◌, ◌^◌, ◌≤◌, ◌<◌, length, take};
ghost use Rattle.cell.specs.Cell.{IsArrangement};
ghost use Rattle.code.specs.Code.{is_code};
ghost use Rattle.gathering.specs.Gather.{follows as follows_in, merges as merges_in, gathered_as, gathered};

use cell::Arrangement;

// Whether the `left` codes before a place are those of the cells before a number, of one resolution.
fn follows(
    arrangement: Arrangement,
    codes: &[u64],
    at: usize,
    resolution: u64,
    number: u64,
    left: u64,
) -> bool
    requires { IsArrangement arrangement × (at ≤ length codes.now) × (resolution ≤ 15) × (number < 6 * 9 ^ resolution) × (left ≤ number) }
    ensures { result ≡ follows_in arrangement resolution number left (take at codes.now) }
{
    if left == 0 {
        return true;
    }
    if at == 0 {
        return false; // no code is left
    }
    if codes[at - 1] != code::code_as(arrangement, resolution, number - 1) {
        return false; // another cell
    }
    follows(arrangement, codes, at - 1, resolution, number - 1, left - 1)
}

// Whether a cell is a ninth child, and the codes before a place are those of its eight siblings.
fn merges(arrangement: Arrangement, codes: &[u64], at: usize, resolution: u64, number: u64) -> bool
    requires { IsArrangement arrangement × (at ≤ length codes.now) × (resolution ≤ 15) × (number < 6 * 9 ^ resolution) }
    ensures { result ≡ merges_in arrangement resolution number (take at codes.now) }
{
    if resolution == 0 {
        return false; // six whole faces do not merge
    }
    if number % 9 != 8 {
        return false; // not the ninth child
    }
    follows(arrangement, codes, at, resolution, number, 8)
}

// A cell, given by its resolution and its number, behind the codes before a place: the parent where it is the ninth of nine siblings, and so on upwards.
fn gather_as(
    arrangement: Arrangement,
    codes: &mut [u64],
    at: usize,
    resolution: u64,
    number: u64,
) -> usize
    requires { IsArrangement arrangement × (at < length codes.old) × (resolution ≤ 15) × (number < 6 * 9 ^ resolution) }
    ensures codes_after { take result codes.new ≡ gathered_as arrangement resolution number (take at codes.old) }
    ensures upper_bound { result ≤ length codes.new }
{
    if merges(arrangement, codes, at, resolution, number) {
        return gather_as(arrangement, codes, at - 8, resolution - 1, number / 9);
    }
    codes[at] = code::code_as(arrangement, resolution, number);
    at + 1
}

// How many codes there are with one more behind the first `count`.
pub fn gather(arrangement: Arrangement, codes: &mut [u64], count: usize, code: u64) -> usize
    requires { IsArrangement arrangement × (count < length codes.old) × (is_code code ≡ true) }
    ensures codes_after { take result codes.new ≡ gathered arrangement code (take count codes.old) }
    ensures upper_bound { result ≤ length codes.new }
{
    let Ok(parts) = code::parts_of(code) else {
        return count; // none, since it is a code
    };
    let resolution = parts.resolution;
    let number = parts.face * ternary::nine_power(resolution) + parts.path;
    gather_as(arrangement, codes, count, resolution, number)
}
