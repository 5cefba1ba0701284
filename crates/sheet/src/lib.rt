// A partner's neighbour sheet (02, W-211): for each whole cell of a coverage text a record of five numbers.
#![tactic(auto)]

ghost use Rattle.std.specs.Prelude.{◌≡◌, true, ◌+◌, ◌≤◌, ◌<◌, leb, length, drop};
ghost use Rattle.std.proofs.lemmas.List.Edits.{sets};
ghost use Rattle.logic.specs.Refusal.{given};
ghost use Rattle.cell.specs.Cell.{IsCell, IsArrangement};
ghost use Rattle.cell.specs.Neighbour.{neighbour_of};
ghost use Rattle.code.specs.Code.{code_of, is_code, cell_of, arrangement_of};
ghost use Rattle.reading.specs.TextReading.{is_text, text_arrangement, body_start};
ghost use Rattle.walk.specs.Walk.{Walks};
ghost use Rattle.sheet.specs.Sheet.{record_of, records_of, low, bytes_of, sheet_refusal, sheet_in, written};
ghost use Rattle.sheet.specs.Verdict.{starts, verdict, judged_of};
ghost use Rattle.sheet.specs.Parts.{StandsAt, start_at, told_of, GoesOver, PartPut};
ghost use Rattle.sheet.specs.Internal.Compared.{PartCompared};
ghost use Rattle.sheet.specs.Internal.Next.{NextIs};

use cell::{Arrangement, Cell};
use reader::Checked;
use reading::Refused;
use walk::Spot;

// A whole cell's code, and its neighbours' codes in direction order.
#[derive(Clone, Copy)]
pub struct Record {
    pub code: u64,
    pub up: u64,
    pub right: u64,
    pub down: u64,
    pub left: u64,
}

// What checking a sheet answers: yes; no, with the number of the first wrong record; or the text's refusal, with the place for 9.
#[derive(Clone, Copy)]
pub enum Judged {
    Right,
    Wrong(u64),
    Refused { refusal: u64, place: u64 },
}

// Where a sheet stands that comes or goes in parts: how many records lie behind, where the walk over the text is behind their cells, and whether a
// wrong record was met.
#[derive(Clone, Copy)]
pub struct Standing {
    pub spot: Spot,
    pub at: usize,
    pub records: u64,
    pub wrong: bool,
}

// The code of a cell's neighbour.
fn neighbour_code(arrangement: Arrangement, cell: Cell, direction: u64) -> u64
    requires { IsArrangement arrangement × IsCell cell × (direction < 4) }
    ensures { result ≡ code_of arrangement (neighbour_of arrangement cell direction) }
{
    code::code_of(arrangement, cell.neighbour(arrangement, direction))
}

// The record that our rules put there for the cell of a code.
fn record_of(code: u64) -> Record
    requires { is_code code ≡ true }
    ensures { result ≡ record_of (arrangement_of code) (cell_of code) }
{
    let arrangement = code::arrangement_of(code);
    let Ok(cell) = code::cell_of(code) else {
        return Record {
            code: 0,
            up: 0,
            right: 0,
            down: 0,
            left: 0,
        };
    };
    Record {
        code,
        up: neighbour_code(arrangement, cell, 0),
        right: neighbour_code(arrangement, cell, 1),
        down: neighbour_code(arrangement, cell, 2),
        left: neighbour_code(arrangement, cell, 3),
    }
}

// The next whole cell from a place on.
fn next_whole(text: &[u8], spot: Spot, at: usize) -> Option<(Spot, usize)>
    requires { Walks text.now at spot }
    ensures { NextIs text.now at spot result }
{
    let mut here = spot;
    let mut i = at;
    while i < text.len() {
        here = here.after(text[i]);
        let whole = walk::whole_at(text, i);
        i = i + 1;
        if whole {
            return Some((here, i));
        }
    }
    None
}

// Whether a number stands at a place of the sheet, low byte first.
fn has_number(sheet: &[u8], at: usize, number: u64) -> bool
    ensures { result ≡ starts (low 8 number) (drop at sheet.now) }
{
    let mut i = at;
    let mut rest = number;
    let mut n: u64 = 8; // compared
    while n > 0 {
        if i >= sheet.len() {
            return false; // the sheet ends
        }
        if sheet[i] != (rest % 256) as u8 {
            return false;
        }
        rest = rest / 256;
        i = i + 1;
        n = n - 1;
    }
    true
}

// Whether a record stands at a place of the sheet.
fn has_record(sheet: &[u8], at: usize, wanted: Record) -> bool
    requires { at ≤ length sheet.now }
    ensures { result ≡ starts (bytes_of wanted) (drop at sheet.now) }
{
    if sheet.len() - at < 40 {
        return false; // broken off
    }
    if !has_number(sheet, at, wanted.code) {
        return false;
    }
    if !has_number(sheet, at + 8, wanted.up) {
        return false;
    }
    if !has_number(sheet, at + 16, wanted.right) {
        return false;
    }
    if !has_number(sheet, at + 24, wanted.down) {
        return false;
    }
    has_number(sheet, at + 32, wanted.left)
}

// Where a sheet starts. The text's body starts at `body`.
pub fn start(body: usize) -> Standing
    ensures { result ≡ start_at body }
{
    Standing {
        spot: Spot {
            resolution: 0,
            number: 0,
            first: 0,
        },
        at: body,
        records: 0,
        wrong: false,
    }
}

// Compares a part of a sheet that begins with a record's first byte with what our rules put there, up to the first wrong record.
fn compare_part(text: &[u8], arrangement: Arrangement, standing: Standing, part: &[u8]) -> Standing
    requires { (arrangement ≡ text_arrangement text.now) × StandsAt text.now standing }
    ensures { PartCompared text.now part.now standing result }
{
    let mut spot = standing.spot;
    let mut at = standing.at;
    let mut records = standing.records;
    let mut i: usize = 0;
    while i < part.len() {
        let Some((here, behind)) = next_whole(text, spot, at) else {
            return Standing {
                spot,
                at,
                records,
                wrong: true, // one too many
            };
        };
        let wanted = record_of(code::code_as(arrangement, here.resolution, here.number));
        if !has_record(part, i, wanted) {
            return Standing {
                spot,
                at,
                records,
                wrong: true, // another
            };
        }
        spot = here;
        at = behind;
        records = records + 1;
        i = i + 40;
    }
    Standing {
        spot,
        at,
        records,
        wrong: false,
    }
}

// Goes over a part of a sheet that begins with a record's first byte. Behind a wrong record nothing more is compared.
pub fn go_over(text: &[u8], arrangement: Arrangement, standing: Standing, part: &[u8]) -> Standing
    requires { (arrangement ≡ text_arrangement text.now) × StandsAt text.now standing }
    ensures { GoesOver text.now part.now standing result }
{
    if standing.wrong {
        return standing; // a wrong one was met
    }
    compare_part(text, arrangement, standing, part)
}

// Whether no whole cell is left.
fn none_left(text: &[u8], standing: Standing) -> bool
    requires { StandsAt text.now standing }
    ensures { result ≡ leb (length (records_of text.now)) standing.records }
{
    let at = standing.at;
    match next_whole(text, standing.spot, at) {
        Some((_, _)) => false,
        None => true,
    }
}

// What checking answers where the sheet ends.
pub fn told(text: &[u8], standing: Standing) -> Judged
    requires { StandsAt text.now standing }
    ensures { result ≡ told_of text.now standing }
{
    if standing.wrong {
        return Judged::Wrong(standing.records);
    }
    if none_left(text, standing) {
        return Judged::Right;
    }
    Judged::Wrong(standing.records) // one is missing
}

// Checks the sheet of an accepted text.
fn judge(text: &[u8], arrangement: Arrangement, body: usize, sheet: &[u8]) -> Judged
    requires { (is_text text.now ≡ true) × (arrangement ≡ text_arrangement text.now) × (body ≡ body_start text.now) }
    ensures { result ≡ verdict text.now sheet.now }
{
    told(text, go_over(text, arrangement, start(body), sheet))
}

// "Check the sheet", of any bytes as a text: 13, 10, 9 where they are none.
pub fn check(text: &[u8], sheet: &[u8]) -> Judged
    ensures { result ≡ judged_of text.now sheet.now }
{
    match reader::check(text) {
        Err(Refused { refusal, place }) => Judged::Refused { refusal, place },
        Ok(checked) => {
            let arrangement = checked.arrangement; // of the sheet
            judge(text, arrangement, checked.body, sheet)
        }
    }
}

// Puts a number to a place, low byte first.
fn put_number(buffer: &mut [u8], at: usize, number: u64)
    requires { at + 8 ≤ length buffer.old }
    ensures { buffer.new ≡ sets buffer.old at (low 8 number) }
{
    let mut i = at;
    let mut rest = number;
    let mut n: u64 = 8; // put
    while n > 0 {
        buffer[i] = (rest % 256) as u8;
        rest = rest / 256;
        i = i + 1;
        n = n - 1;
    }
}

// Puts a record to a place.
fn put_record(buffer: &mut [u8], at: usize, wanted: Record)
    requires { at + 40 ≤ length buffer.old }
    ensures { buffer.new ≡ sets buffer.old at (bytes_of wanted) }
{
    put_number(buffer, at, wanted.code);
    put_number(buffer, at + 8, wanted.up);
    put_number(buffer, at + 16, wanted.right);
    put_number(buffer, at + 24, wanted.down);
    put_number(buffer, at + 32, wanted.left);
}

// Puts the records of the next whole cells to the front of the buffer, as many as it has room for: where the sheet stands then.
pub fn put_part(
    text: &[u8],
    arrangement: Arrangement,
    standing: Standing,
    buffer: &mut [u8],
) -> Standing
    requires { (arrangement ≡ text_arrangement text.now) × StandsAt text.now standing }
    ensures { PartPut text.now standing buffer.old buffer.new result }
{
    let mut spot = standing.spot;
    let mut at = standing.at;
    let mut records = standing.records;
    let mut i: usize = 0;
    while buffer.len() - i >= 40 {
        let Some((here, behind)) = next_whole(text, spot, at) else {
            return Standing {
                spot,
                at,
                records,
                wrong: false, // none is left
            };
        };
        let wanted = record_of(code::code_as(arrangement, here.resolution, here.number));
        put_record(buffer, i, wanted);
        spot = here;
        at = behind;
        records = records + 1;
        i = i + 40;
    }
    Standing {
        spot,
        at,
        records,
        wrong: false, // no room is left
    }
}

// Writes the sheet of our rules: 13, 10, 9 where the bytes are no text, 8 where the buffer is shorter than the sheet.
pub fn write(text: &[u8], buffer: &mut [u8]) -> Result<u64, Refused>
    ensures value { result ≡ written (sheet_refusal text.now (length buffer.old)) text.now }
    ensures buffer_after { buffer.new ≡ given (sheet_refusal text.now (length buffer.old)) (sheet_in text.now buffer.old) buffer.old }
{
    let checked = reader::check(text)?;
    let cells = checked.cells;
    if (buffer.len() as u64) / 40 < cells {
        return Err(Refused {
            refusal: 8,
            place: 0,
        });
    }
    let arrangement = checked.arrangement;
    put_part(text, arrangement, start(checked.body), buffer);
    Ok(40 * cells)
}
