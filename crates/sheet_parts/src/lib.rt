// What `coverage sheet` reads and prints: a neighbour sheet part by part, since the longest has more bytes than a program holds at once.
#![tactic(auto)]

ghost use Rattle.std.specs.Prelude.{◌≡◌, true, ◌*◌, ◌%◌, ◌≤◌, ◌<◌, length};
ghost use Rattle.reading.specs.Ground.{whole_cells};
ghost use Rattle.reading.specs.TextReading.{nodes_of, is_text, text_arrangement, body_start};
ghost use Rattle.reader.specs.Check.{text_refusal};
ghost use Rattle.report.specs.Put.{Put};
ghost use Rattle.sheet.specs.Sheet.{records_of};
ghost use Rattle.sheet_parts.specs.Printed.{judged_line, PartsWritten, SheetWritten, Judges, JudgesText};

use cell::Arrangement;
use reader::Checked;
use reading::Refused;
use sheet::Judged;
use std::fs::File;

// Where the bytes that wait end; and the refusal that is to be said, 0 for none, with its place.
#[derive(Clone, Copy)]
pub struct SheetPut {
    pub end: usize,
    pub refusal: u64,
    pub place: u64,
}

// The bytes of so many records, which have this room.
fn bytes_of(records: u64, room: usize) -> usize
    requires { 40 * records ≤ room }
    ensures { result ≡ 40 * records }
{
    (40 * records) as usize
}

// The sheet of an accepted text with so many whole cells: what is left of it in front, behind what was printed.
fn put_parts(
    rt: &HostRuntime,
    text: &[u8],
    arrangement: Arrangement,
    body: usize,
    cells: u64,
    out: &mut [u8],
) -> usize
    requires text_value { (is_text text.now ≡ true) × (arrangement ≡ text_arrangement text.now) × (body ≡ body_start text.now) × (cells ≡ length (whole_cells (nodes_of text.now))) }
    requires in_bounds { 40 ≤ length out.old }
    ensures { PartsWritten (records_of text.now) out.new result }
{
    let mut standing = sheet::start(body);
    let mut end: usize = 0;
    // by hand: a turn goes on by as many records as there is room for
    while standing.records < cells {
        console::print_first(rt, out, end);
        let next = sheet::put_part(text, arrangement, standing, out);
        end = bytes_of(next.records - standing.records, out.len());
        standing = next;
    }
    end
}

// The sheet of any bytes, part by part: nothing where they are no text.
pub fn put_sheet(rt: &HostRuntime, text: &[u8], out: &mut [u8]) -> SheetPut
    requires { 40 ≤ length out.old }
    ensures sheet_written { SheetWritten (text_refusal text.now) text.now out.new result }
    ensures end_in_bounds { result.end ≤ length out.new }
{
    match reader::check(text) {
        Err(Refused { refusal, place }) => SheetPut {
            end: 0,
            refusal,
            place,
        },
        Ok(checked) => {
            let arrangement = checked.arrangement;
            SheetPut {
                end: put_parts(rt, text, arrangement, checked.body, checked.cells, out),
                refusal: 0,
                place: 0,
            }
        }
    }
}

// Checks the sheet that comes from an open file, beside an accepted text. One that cannot be read counts as empty, and standard error says why.
fn judge_parts(
    rt: &HostRuntime,
    text: &[u8],
    arrangement: Arrangement,
    body: usize,
    file: &mut File,
    path: &[u8],
    part: &mut [u8],
) -> Judged
    requires text_value { (is_text text.now ≡ true) × (arrangement ≡ text_arrangement text.now) × (body ≡ body_start text.now) }
    requires part_nonzero { (0 < length part.old) × (length part.old % 40 ≡ 0) }
    ensures { Judges text.now part.new result }
{
    let mut standing = sheet::start(body);
    // by hand: it ends where the sheet does, not after a count
    loop {
        let Some(count) = console::read_all(rt, b"coverage", path, file, part) else {
            return sheet::told(text, sheet::start(body));
        };
        standing = sheet::go_over(text, arrangement, standing, &part[..count]);
        if standing.wrong {
            return sheet::told(text, standing); // whatever follows
        }
        if count < part.len() {
            return sheet::told(text, standing); // the sheet ends
        }
    }
}

// The same of any bytes as a text: 13, 10, 9 where they are none.
pub fn judge_file(
    rt: &HostRuntime,
    text: &[u8],
    file: &mut File,
    path: &[u8],
    part: &mut [u8],
) -> Judged
    requires { (0 < length part.old) × (length part.old % 40 ≡ 0) }
    ensures { JudgesText (text_refusal text.now) text.now part.new result }
{
    match reader::check(text) {
        Err(Refused { refusal, place }) => Judged::Refused { refusal, place },
        Ok(checked) => {
            let arrangement = checked.arrangement;
            judge_parts(rt, text, arrangement, checked.body, file, path, part)
        }
    }
}

// Puts what checking a sheet answers in one line, `yes`, `no` and the record, or the refusal number: where it ends.
pub fn put_judged(judged: Judged, out: &mut [u8]) -> usize
    requires { 24 ≤ length out.old }
    ensures put { Put 0 (judged_line judged) out.old out.new result }
    ensures upper_bound { result ≤ 24 }
{
    match judged {
        Judged::Right => copying::copy(b"yes\n", out),
        Judged::Wrong(record) => {
            let at = copying::copy(b"no ", out);
            let end = decimal::put_whole(record, out, at);
            out[end] = b'\n';
            end + 1
        }
        Judged::Refused { refusal, place: _ } => report::put_line(refusal, out),
    }
}
