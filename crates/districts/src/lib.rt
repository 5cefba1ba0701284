// What `coverage summary` prints: the districts that have anything, or the answer to a question by name.
#![tactic(auto)]

ghost use Rattle.std.specs.Prelude.{◌≡◌, ◌+◌, ◌≤◌, ◌<◌, ◌^◌, length, get_or, Ok};
ghost use Rattle.cell.specs.Cell.{IsArrangement};
ghost use Rattle.reader.specs.Check.{text_refusal, place_with};
ghost use Rattle.report.specs.Put.{Put};
ghost use Rattle.report.specs.Lines.{number_line};
ghost use Rattle.districts.specs.Districts.{share_line, district_line, district_lines, summary_lines, AtMostFull};
ghost use Rattle.districts.specs.Question.{kept_arrangement, name_question_refusal, question_place, questioned_name, question_line, refusal_of};

use cell::Arrangement;
use reading::Refused;

// Where lines end; and their refusal, 0 for none, with the place.
#[derive(Clone, Copy)]
pub struct LinesPut {
    pub end: usize,
    pub refusal: u64,
    pub place: u64,
}

// Puts `done`, or the percentage cut to a whole number, and a line end from `at` on: where they end.
fn put_share(count: u64, out: &mut [u8], at: usize) -> usize
    requires count_bound { count ≤ 9 ^ 13 }
    requires at_in_bounds { at + 22 ≤ length out.old }
    ensures put { Put at (share_line count) out.old out.new result }
    ensures upper_bound { result ≤ at + 22 }
{
    if count == summary::DISTRICT_SIZE {
        return at + copying::copy(b"done\n", &mut out[at..]);
    }
    let end = report::put_number(count * 100 / summary::DISTRICT_SIZE, b'%', out, at);
    out[end] = b'\n';
    end + 1
}

// Puts a district's name, its count and its share in a line from `at` on, nothing where its count is 0: where it ends.
fn put_district(
    arrangement: Arrangement,
    number: u64,
    count: u64,
    out: &mut [u8],
    at: usize,
) -> usize
    requires arrangement { IsArrangement arrangement }
    requires number_bound { (number < 486) × (count ≤ 9 ^ 13) }
    requires at_in_bounds { at + 60 ≤ length out.old }
    ensures put { Put at (district_line number count) out.old out.new result }
    ensures upper_bound { result ≤ at + 60 }
{
    if count == 0 {
        return at;
    }
    let code = code::code_as(arrangement, 2, number);
    let named = report::put_name_and(code, b' ', out, at);
    let counted = report::put_number(count, b' ', out, named);
    put_share(count, out, counted)
}

// Puts the lines of all districts in front: where they end.
pub fn put_districts(arrangement: Arrangement, counters: &[u64; 486], out: &mut [u8]) -> usize
    requires arrangement { IsArrangement arrangement }
    requires at_most_full { AtMostFull counters.now }
    requires in_bounds { 29160 ≤ length out.old }
    ensures put { Put 0 (district_lines 0 counters.now) out.old out.new result }
    ensures upper_bound { result ≤ 29160 }
{
    let mut end: usize = 0;
    for i in 0..486 {
        end = put_district(arrangement, i as u64, counters[i], out, end);
    }
    end
}

// Puts a refusal number on a line, in front.
fn refused(refusal: u64, place: u64, out: &mut [u8]) -> LinesPut
    requires { 21 ≤ length out.old }
    ensures put { Put 0 (number_line refusal) out.old out.new result.end }
    ensures refusal_value { (result.refusal ≡ refusal) × (result.place ≡ place) × (result.end ≤ 21) }
{
    LinesPut {
        end: report::put_line(refusal, out),
        refusal, // on the line
        place, // beside it
    }
}

// Puts the districts of a text that have anything, one a line, or the refusal number.
pub fn put_summary(text: &[u8], out: &mut [u8]) -> LinesPut
    requires { 29160 ≤ length out.old }
    ensures put { Put 0 (summary_lines text.now) out.old out.new result.end }
    ensures refusal_value { (result.refusal ≡ text_refusal text.now) × (result.place ≡ place_with (text_refusal text.now) text.now) × (result.end ≤ 29160) }
{
    let mut counters = [0u64; 486];
    match summary::summarize(text, &mut counters) {
        Ok(arrangement) => LinesPut {
            end: put_districts(arrangement, &counters, out),
            refusal: 0, // summed up
            place: 0,
        },
        Err(Refused { refusal, place }) => refused(refusal, place, out), // no summary
    }
}

// The arrangement that is kept. Where the text is refused any will do, for then no question is asked.
fn kept_arrangement(summarized: Result<Arrangement, Refused>) -> Arrangement
    ensures { result ≡ kept_arrangement summarized }
{
    match summarized {
        Ok(arrangement) => arrangement,
        Err(Refused { .. }) => Arrangement { north: 0, south: 0 },
    }
}

// Puts `yes` or `no` on a line, in front: where it ends.
fn put_word(yes: bool, out: &mut [u8]) -> usize
    requires { 21 ≤ length out.old }
    ensures put { Put 0 (question_line (Ok yes)) out.old out.new result }
    ensures upper_bound { result ≤ 21 }
{
    if yes {
        return copying::copy(b"yes\n", out);
    }
    copying::copy(b"no\n", out)
}

// Puts `yes`, `no` or the refusal number on a line, in front.
fn put_answer(questioned: Result<bool, u64>, out: &mut [u8]) -> LinesPut
    requires { 21 ≤ length out.old }
    ensures put { Put 0 (question_line questioned) out.old out.new result.end }
    ensures refusal_value { (result.refusal ≡ refusal_of questioned) × (result.place ≡ 0) × (result.end ≤ 21) }
{
    match questioned {
        Ok(covered) => LinesPut {
            end: put_word(covered, out),
            refusal: 0, // answered
            place: 0, // of an answer
        },
        Err(refusal) => refused(refusal, 0, out), // of a question
    }
}

// Puts whether the district, or the coarser cell, of a name is done, by the counters. The name is tested first.
pub fn put_question(text: &[u8], name: &[u8], out: &mut [u8]) -> LinesPut
    requires { 21 ≤ length out.old }
    ensures put { Put 0 (question_line (questioned_name text.now name.now)) out.old out.new result.end }
    ensures refusal_value { (result.refusal ≡ name_question_refusal text.now name.now) × (result.place ≡ question_place text.now name.now) × (result.end ≤ 21) }
{
    let mut counters = [0u64; 486];
    let summarized = summary::summarize(text, &mut counters);
    let kept = kept_arrangement(summarized);
    match name::name_code(kept, name) {
        Err(refusal) => refused(refusal, 0, out), // of the name
        Ok(code) => match summarized {
            Err(Refused { refusal, place }) => refused(refusal, place, out), // of the text
            Ok(_) => put_answer(summary::question(kept, &counters, code), out),
        },
    }
}
