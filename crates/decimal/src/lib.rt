// Whole numbers and fixes as people write them, in decimal digits.
#![tactic(auto)]

ghost use Rattle.std.specs.Prelude.{◌≡◌, ◌++◌, ◌+◌, ◌^◌, ◌≤◌, ◌<◌, length, take, drop};
ghost use Rattle.decimal.specs.Fraction.{whole_fraction, fraction_in};
ghost use Rattle.decimal.specs.Decimal.{whole_in, number_in, fix_in, signed_number, ahead, trimmed, printed};

fn wide(x: u8) -> u64
    ensures { result ≡ x }
{
    x as u64
}

// 1 to 19 decimal digits.
pub fn whole_in(text: &[u8]) -> Option<u64>
    ensures { result ≡ whole_in text.now }
{
    if text.len() == 0 {
        return None;
    }
    if text.len() > 19 {
        return None;
    }
    let mut n: u64 = 0;
    for byte in text {
        let b = wide(*byte);
        if b < 48 {
            return None;
        }
        if b > 57 {
            return None;
        }
        n = n * 10 + (b - 48);
    }
    Some(n)
}

// A number with its sign. One whose size is 2^63 or more is refused.
fn number_of(minus: bool, size: Option<u64>) -> Option<i64>
    ensures { result ≡ signed_number minus size }
{
    let n = size?;
    if n > 9_223_372_036_854_775_807 {
        return None;
    }
    if minus {
        return Some(signed::difference(0, n));
    }
    Some(signed::as_signed(n))
}

// A whole number with or without a minus sign before it.
pub fn number_in(text: &[u8]) -> Option<i64>
    ensures { result ≡ number_in text.now }
{
    if text.len() == 0 {
        return None;
    }
    if text[0] == b'-' {
        return number_of(true, whole_in(&text[1..]));
    }
    number_of(false, whole_in(text))
}

// How many bytes stand before the first one that is `stop`: all where none is.
fn ahead_of(text: &[u8], stop: u8) -> usize
    ensures { result ≡ length (ahead stop text.now) }
{
    for (i, byte) in text.iter().enumerate() {
        if *byte == stop {
            return i;
        }
    }
    text.len()
}

// The length of a line without the carriage return that may end it.
pub fn trimmed_length(line: &[u8]) -> usize
    ensures value { result ≡ length (trimmed line.now) }
    ensures upper_bound { result ≤ length line.now }
{
    let n = line.len();
    if n == 0 {
        return 0;
    }
    if line[n - 1] == b'\r' {
        return n - 1;
    }
    n
}

// The fix of a line: two numbers with a space between them.
pub fn fix_in(line: &[u8]) -> Option<(i64, i64)>
    ensures { result ≡ fix_in line.now }
{
    let end = trimmed_length(line);
    let text = &line[..end];
    let space = ahead_of(text, b' ');
    if space == end {
        return None;
    }
    let longitude = number_in(&text[..space])?;
    let rest = space + 1;
    let z = number_in(&text[rest..])?;
    Some((longitude, z))
}

// How many decimal digits a number has.
fn length_of(x: u64) -> usize
    ensures value { result ≡ length (printed x) }
    ensures result_nonzero { (0 < result) × (result ≤ 20) }
{
    let mut n: usize = 1;
    let mut rest = x;
    // by hand: it ends at a size, not after a number of turns known before
    while rest > 9 {
        rest = rest / 10;
        n = n + 1;
    }
    n
}

// Writes a number in decimal from `at` on, and answers where it ends. 20 bytes are always enough.
pub fn put_whole(x: u64, out: &mut [u8], at: usize) -> usize
    requires { at + 20 ≤ length out.old }
    ensures value { result ≡ at + length (printed x) }
    ensures upper_bound { result ≤ at + 20 }
    ensures out_after { out.new ≡ take at out.old ++ (printed x ++ drop (at + length (printed x)) out.old) }
{
    let end = at + length_of(x);
    let mut rest = x;
    for i in (at..end).rev() {
        out[i] = (48 + rest % 10) as u8;
        rest = rest / 10;
    }
    end
}

// 10^places.
fn ten_to(places: usize) -> u64
    requires { places ≤ 15 }
    ensures { result ≡ 10 ^ places }
{
    let mut power: u64 = 1;
    for _ in 0..places {
        power = power * 10;
    }
    power
}

// Up to 15 digits alone.
fn whole_fraction(text: &[u8]) -> Option<(u64, u64)>
    ensures { result ≡ whole_fraction text.now }
{
    if text.len() > 15 {
        return None;
    }
    match whole_in(text) {
        Some(number) => Some((number, 1)),
        None => None,
    }
}

// Digits, with or without a point and digits behind it: up to 15 in all.
pub fn fraction_in(text: &[u8]) -> Option<(u64, u64)>
    ensures { result ≡ fraction_in text.now }
{
    let point = ahead_of(text, b'.');
    if point == text.len() {
        return whole_fraction(text);
    }
    if text.len() > 16 {
        return None;
    }
    let front = whole_in(&text[..point])?;
    let rest = point + 1;
    let back = whole_in(&text[rest..])?;
    let scale = ten_to(text.len() - rest);
    Some((front * scale + back, scale))
}
