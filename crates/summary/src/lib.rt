// A summary kept beside a text: for each cell of resolution 2, a district, the number of covered finest cells inside it.
#![tactic(auto)]

ghost use Rattle.std.specs.Prelude.{◌≡◌, true, ◌+◌, ◌≤◌};
ghost use Rattle.cell.specs.Cell.{IsArrangement};
ghost use Rattle.reading.specs.Ground.{whole_cells};
ghost use Rattle.reading.specs.TextReading.{is_text, nodes_of, body_start};
ghost use Rattle.reader.specs.Check.{text_refusal};
ghost use Rattle.summary.specs.Summary.{counters_of, summarized, kept_counters, all_full, question_refusal, questioned};
ghost use Rattle.summary.specs.Internal.Raised.{in_counter, raised, amounts, Room, CellRoom};

use cell::Arrangement;
use reader::Checked;
use reading::Refused;
use walk::Spot;

// The size of a cell of resolution 2, 9^13.
pub const DISTRICT_SIZE: u64 = 2_541_865_828_329;

// Adds an amount to `count` counters, from `first` on.
fn raise(counters: &mut [u64; 486], first: usize, count: usize, amount: u64)
    requires { Room counters.old first count amount }
    ensures { counters.new ≡ raised counters.old (amounts first count amount) }
{
    let end = first + count;
    let mut i = first;
    while i < end {
        counters[i] = counters[i] + amount;
        i = i + 1;
    }
}

// Counts the finest cells of a cell: one of resolution 0 or 1 has 81 or 9 counters, any other lies in one.
fn count_cell(counters: &mut [u64; 486], resolution: u64, number: u64)
    requires { CellRoom counters.old resolution number }
    ensures { counters.new ≡ raised counters.old (in_counter resolution number) }
{
    let size = ternary::nine_power(15 - resolution);
    let first = (number * size / DISTRICT_SIZE) as usize;
    if size < DISTRICT_SIZE {
        raise(counters, first, 1, size);
        return;
    }
    raise(
        counters,
        first,
        (size / DISTRICT_SIZE) as usize,
        DISTRICT_SIZE,
    );
}

// "486 counters .. all zero before the first face is read, .. each then the number of covered finest cells inside it". The body starts at `body`.
fn count_cells(text: &[u8], body: usize, counters: &mut [u64; 486])
    requires { (is_text text.now ≡ true) × (body ≡ body_start text.now) }
    ensures { counters.new ≡ counters_of (whole_cells (nodes_of text.now)) }
{
    *counters = [0u64; 486];
    let mut spot = Spot {
        resolution: 0,
        number: 0,
        first: 0,
    };
    let mut i: usize = body;
    while i < text.len() {
        spot = spot.after(text[i]);
        let whole = walk::whole_at(text, i);
        i = i + 1;
        if !whole {
            continue;
        }
        count_cell(counters, spot.resolution, spot.number);
    }
}

// The summary of any bytes: 13, 10, 9 where they are no text.
pub fn summarize(text: &[u8], counters: &mut [u64; 486]) -> Result<Arrangement, Refused>
    ensures value { result ≡ summarized (text_refusal text.now) text.now }
    ensures counters_after { counters.new ≡ kept_counters text.now counters.old }
{
    let checked = match reader::check(text) {
        Ok(checked) => checked,
        Err(Refused { refusal, place }) => return Err(Refused { refusal, place }),
    };
    count_cells(text, checked.body, counters);
    Ok(checked.arrangement)
}

// Whether each of these counters is 9^13.
fn all_full(counters: &[u64; 486], first: usize, count: usize) -> bool
    requires { first + count ≤ 486 }
    ensures { result ≡ all_full counters.now first count }
{
    let mut i: usize = 0;
    while i < count {
        if counters[first + i] != DISTRICT_SIZE {
            return false;
        }
        i = i + 1;
    }
    true
}

// 5, 4, 2 and 14, in that order, or 0.
fn question_refusal(kept: Arrangement, code: u64) -> u64
    ensures { result ≡ question_refusal kept code }
{
    let refusal = kept.refusal();
    if refusal != 0 {
        return refusal;
    }
    if !code::is_code(code) {
        return 4;
    }
    if code::size_in(code) < DISTRICT_SIZE {
        return 2;
    }
    if !code::is_of(kept, code) {
        return 14;
    }
    0
}

// Whether a cell of resolution 0 to 2 is covered, by any n, s and counters that are kept.
pub fn question(kept: Arrangement, counters: &[u64; 486], code: u64) -> Result<bool, u64>
    ensures { result ≡ questioned (question_refusal kept code) counters.now code }
{
    let refusal = question_refusal(kept, code);
    if refusal != 0 {
        return Err(refusal);
    }
    let first = (code::start_in(code) / DISTRICT_SIZE) as usize;
    let count = (code::size_in(code) / DISTRICT_SIZE) as usize;
    Ok(all_full(counters, first, count))
}
