// Numbers of fixed widths in bytes, high byte first: read between limits, up to the first byte that is wrong, and written.
#![tactic(auto)]

ghost use Rattle.std.specs.Prelude.{◌≡◌, ◌+◌, ◌^◌, ◌≤◌, ◌<◌, length};
ghost use Rattle.std.proofs.lemmas.List.Edits.{sets};
ghost use Rattle.ternary.specs.Digits.{digits};
ghost use Rattle.fields.specs.Number.{number_at};

fn wide(x: u8) -> u64
    ensures { result ≡ x }
{
    x as u64
}

// How many numbers there are of so many bytes.
fn power(width: usize) -> u64
    requires { width ≤ 5 }
    ensures { result ≡ 256 ^ width }
{
    match width {
        0 => 1,
        1 => 0x100,
        2 => 0x1_0000,
        3 => 0x100_0000,
        4 => 0x1_0000_0000,
        _ => 0x100_0000_0000,
    }
}

// The number of so many bytes from `at` on. With the bytes gone over it may be `from` or one of the next, as many as the unit says.
pub fn number_at(bytes: &[u8], at: usize, width: usize, least: u64, most: u64) -> Result<u64, usize>
    requires { (width ≤ 5) × (at + width < 2 ^ 64) }
    ensures { result ≡ number_at bytes.now at width least most }
{
    let stop = at + width;
    let mut unit = power(width);
    let mut from: u64 = 0;
    for place in at..stop {
        if place >= bytes.len() {
            return Err(place);
        }
        unit = unit / 256;
        from = from + wide(bytes[place]) * unit;
        if from > most {
            return Err(place);
        }
        if from + unit <= least {
            return Err(place);
        }
    }
    Ok(from)
}

// Puts the last so many bytes of a number from `at` on.
pub fn put_number(x: u64, width: usize, bytes: &mut [u8], at: usize)
    requires { at + width ≤ length bytes.old }
    ensures { bytes.new ≡ sets bytes.old at (digits 256 width x) }
{
    let mut rest = x;
    for left in (0..width).rev() {
        bytes[at + left] = (rest % 256) as u8;
        rest = rest / 256;
    }
}
