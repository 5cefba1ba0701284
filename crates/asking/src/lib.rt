// Whether a cell's finest cells are all covered, and how many letters and digits of the text settle that.
#![tactic(auto)]

ghost use Rattle.std.specs.Prelude.{◌≡◌, true, false, cond, ◌+◌, ◌-◌, ◌≤◌, ◌<◌, ltb, length, drop};
ghost use Rattle.code.specs.Code.{is_code, arrangement_of};
ghost use Rattle.reading.specs.Letters.{is_letter, letter_count};
ghost use Rattle.reading.specs.TextReading.{is_text, text_arrangement, body_start};
ghost use Rattle.asking.specs.Ask.{ask_refusal, asked};
ghost use Rattle.asking.specs.Internal.Reach.{Reaches};

use cell::Arrangement;
use reader::Checked;
use reading::Refused;

// Whether all of the asked cell's finest cells are covered, and how many letters and digits of the text settle it.
#[derive(Clone, Copy)]
pub struct Asked {
    pub covered: bool,
    pub settled: u64,
}

// How far asking reads: the answer, and the place behind the last letter or digit whose code is not above the asked one's.
#[derive(Clone, Copy)]
struct Reached {
    covered: bool,
    at: usize,
}

// No whole cell has the asked one inside, and what stands from `at` on is above it.
fn uncovered(at: usize) -> Reached
    ensures { (result.covered ≡ false) × (result.at ≡ at) }
{
    Reached { covered: false, at }
}

// "whether all of one cell's finest cells are covered": one whole cell of the text has the cell inside. Codes rise as the letters and digits stand.
// Nodes that end before the cell starts are passed over. One that starts behind its start, or with it and is smaller, is above it, as all behind it
// are. The cells side by side have this size, and the first one starts at `before`.
fn reach(text: &[u8], body: usize, code: u64) -> Reached
    requires { (is_text text.now ≡ true) × (body ≡ body_start text.now) × (is_code code ≡ true) × (arrangement_of code ≡ text_arrangement text.now) }
    ensures { Reaches text.now code result.covered result.at }
{
    let from = code::start_in(code);
    let to = from + code::size_in(code);
    let mut base: u8 = b'N';
    let mut before: u64 = 0;
    let mut size: u64 = code::FACE_SIZE;
    let mut i: usize = body;
    while i < text.len() { // by hand: a turn goes into a list or over a whole node
        let b = text[i];
        if b == b')' {
            return uncovered(i);
        }
        let start = before + (b - base) as u64 * size;
        if start > from {
            return uncovered(i);
        }
        if start + size <= from {
            i = walk::past_node(text, i);
            continue;
        }
        if start + size < to {
            return uncovered(i);
        }
        if walk::whole_at(text, i) {
            return Reached {
                covered: true,
                at: i + 1,
            };
        }
        base = b'0';
        before = start;
        size = size / 9;
        i += 2;
    }
    uncovered(text.len())
}

// 1 for a letter or digit, 0 for a bracket.
fn letter_in(b: u8) -> u8
    ensures { result ≡ cond (is_letter b) 1 0 }
{
    if b == b'(' {
        return 0;
    }
    if b == b')' {
        return 0;
    }
    1
}

// How many letters and digits stand from `from` to before `to`, in at most 255 bytes: counted in a byte, so that many are counted at once.
fn letters_in(text: &[u8], from: usize, to: usize) -> u8
    requires { (from ≤ to) × (to ≤ length text.now) × (to ≤ from + 255) }
    ensures { result ≡ letter_count (drop from text.now) - letter_count (drop to text.now) }
{
    let mut count: u8 = 0;
    for i in from..to {
        count += letter_in(text[i]);
    }
    count
}

// Where 255 bytes from `i` on end, or `at` if that comes first.
fn part_end(i: usize, at: usize) -> usize
    requires { i < at }
    ensures { (i < result) × (result ≤ at) × (result ≤ i + 255) }
{
    if at - i > 255 {
        return i + 255;
    }
    at
}

// How many letters and digits stand from `from` to before `at`.
fn letters_before(text: &[u8], from: usize, at: usize) -> u64
    requires { (from ≤ at) × (at ≤ length text.now) }
    ensures { result ≡ letter_count (drop from text.now) - letter_count (drop at text.now) }
{
    let mut count: u64 = 0;
    let mut i = from;
    // by hand: a turn takes up to 255 bytes
    while i < at {
        let end = part_end(i, at);
        count += letters_in(text, i, end) as u64;
        i = end;
    }
    count
}

// Whether a letter or digit stands from `at` on.
fn letter_from(text: &[u8], at: usize) -> bool
    ensures { result ≡ ltb 0 (letter_count (drop at text.now)) }
{
    for i in at..text.len() {
        if letter_in(text[i]) != 0 {
            return true;
        }
    }
    false
}

// "those .. whose codes are not above the asked one's", which stand before `at`, "plus one if a later one exists".
fn settled_at(text: &[u8], body: usize, at: usize) -> u64
    requires { (body ≤ at) × (at ≤ length text.now) }
    ensures { result ≡ (letter_count (drop body text.now) - letter_count (drop at text.now)) + cond (ltb 0 (letter_count (drop at text.now))) 1 0 }
{
    let counted = letters_before(text, body, at);
    if letter_from(text, at) {
        return counted + 1;
    }
    counted
}

// The answer of a text of the asked code's arrangement.
fn answered(text: &[u8], body: usize, code: u64) -> Result<Asked, Refused>
    requires { (is_text text.now ≡ true) × (body ≡ body_start text.now) × (is_code code ≡ true) × (arrangement_of code ≡ text_arrangement text.now) }
    ensures { result ≡ asked 0 text.now code }
{
    let reached = reach(text, body, code);
    let at = reached.at;
    Ok(Asked {
        covered: reached.covered,
        settled: settled_at(text, body, at),
    })
}

// Asking any bytes of any code: 4, 13, 10, 9 and 14, in that order.
pub fn ask(text: &[u8], code: u64) -> Result<Asked, Refused>
    ensures { result ≡ asked (ask_refusal text.now code) text.now code }
{
    if !code::is_code(code) {
        return Err(Refused {
            refusal: 4,
            place: 0,
        });
    }
    let checked = reader::check(text)?;
    let arrangement = checked.arrangement;
    if !code::is_of(arrangement, code) {
        return Err(Refused {
            refusal: 14, // of another arrangement
            place: 0,
        });
    }
    answered(text, checked.body, code)
}
