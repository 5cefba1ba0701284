// What the programs print, as bytes in lent memory.
#![tactic(auto)]

ghost use Rattle.std.specs.Prelude.{◌≡◌, [], ◌∷◌, ◌++◌, ◌+◌, ◌≤◌, ◌<◌, length, drop, get_or};
ghost use Rattle.decimal.specs.Decimal.{printed};
ghost use Rattle.report.specs.Put.{Put};
ghost use Rattle.report.specs.Answer.{answer_line};
ghost use Rattle.report.specs.Changes.{kind_words, change_line};
ghost use Rattle.report.specs.Names.{name_bytes, NamesPut};
ghost use Rattle.report.specs.Lines.{number_line, four_numbers, check_line, asked_line};
ghost use Rattle.report.specs.History.{settings_line, revision_line, kept_number, history_lines};

use asking::Asked;
use flight::Setting;
use history::{History, Settings};
use reader::Checked;
use reading::Refused;

// Puts a number in decimal and a byte after it from `at` on: where they end.
pub fn put_number(x: u64, byte: u8, out: &mut [u8], at: usize) -> usize
    requires { at + 21 ≤ length out.old }
    ensures put { Put at (printed x ++ (byte ∷ [])) out.old out.new result }
    ensures upper_bound { result ≤ at + 21 }
{
    let end = decimal::put_whole(x, out, at);
    out[end] = byte; // behind a number
    end + 1
}

// Puts a number and a line end in front: where they end.
pub fn put_line(x: u64, out: &mut [u8]) -> usize
    requires { 21 ≤ length out.old }
    ensures put { Put 0 (number_line x) out.old out.new result }
    ensures upper_bound { result ≤ 21 }
{
    put_number(x, b'\n', out, 0)
}

// Puts the name of the cell of a code, if there is one, in front of the room: its length.
fn put_name(code: u64, room: &mut [u8]) -> usize
    requires { 16 ≤ length room.old }
    ensures value { result ≡ length (name_bytes code) }
    ensures upper_bound { result ≤ 16 }
    ensures room_after { room.new ≡ name_bytes code ++ drop (length (name_bytes code)) room.old }
{
    match name::code_name(code, room) {
        Ok(length) => length as usize,
        Err(_) => 0, // no cell's: a name has room
    }
}

// Puts the same and a byte after it from `at` on: where they end.
pub fn put_name_and(code: u64, byte: u8, out: &mut [u8], at: usize) -> usize
    requires { at + 17 ≤ length out.old }
    ensures put { Put at (name_bytes code ++ (byte ∷ [])) out.old out.new result }
    ensures upper_bound { result ≤ at + 17 }
{
    let end = at + put_name(code, &mut out[at..]);
    out[end] = byte; // behind a name
    end + 1
}

// Puts the answer to a line of a flight, the name of its cell or the refusal number, and a line end from `at` on: where they end.
pub fn put_answer(setting: Setting, line: &[u8], out: &mut [u8], at: usize) -> usize
    requires { at + 21 ≤ length out.old }
    ensures put { Put at (answer_line setting line.now) out.old out.new result }
    ensures upper_bound { result ≤ at + 21 }
{
    match flight::line_code(setting, line) {
        Ok(code) => put_name_and(code, b'\n', out, at),
        Err(refusal) => put_number(refusal, b'\n', out, at),
    }
}

// Puts four numbers from `at` on, a space between them and a byte at the end: where they end.
fn put_four(a: u64, b: u64, c: u64, d: u64, byte: u8, out: &mut [u8], at: usize) -> usize
    requires { at + 84 ≤ length out.old }
    ensures put { Put at (four_numbers a b c d byte) out.old out.new result }
    ensures upper_bound { result ≤ at + 84 }
{
    let second = put_number(a, b' ', out, at);
    let third = put_number(b, b' ', out, second);
    let fourth = put_number(c, b' ', out, third);
    put_number(d, byte, out, fourth)
}

// How many names were put, and where they end.
#[derive(Clone, Copy)]
pub struct Names {
    pub count: usize,
    pub end: usize,
}

// Puts the names of codes, one a line, as many as there is room for.
pub fn put_names(codes: &[u64], out: &mut [u8]) -> Names
    ensures { NamesPut codes.now out.old out.new result }
{
    let mut end: usize = 0;
    for count in 0..codes.len() {
        if out.len() - end < 17 {
            return Names { count, end };
        }
        end = put_name_and(codes[count], b'\n', out, end);
    }
    let count = codes.len();
    Names { count, end }
}

// Puts what checking answers in one line, `refusal place version depth n s cells size`: where it ends.
pub fn put_check(checked: Result<Checked, Refused>, out: &mut [u8]) -> usize
    requires { 168 ≤ length out.old }
    ensures put { Put 0 (check_line checked) out.old out.new result }
    ensures upper_bound { result ≤ 168 }
{
    match checked {
        Ok(checked) => {
            let version = reading::version_of(checked.profile);
            let depth = reading::depth_of(checked.profile);
            let middle = put_four(0, 0, version, depth, b' ', out, 0);
            put_four(
                checked.arrangement.north,
                checked.arrangement.south,
                checked.cells,
                checked.size,
                b'\n',
                out,
                middle,
            )
        }
        Err(Refused { refusal, place }) => {
            let middle = put_four(refusal, place, 0, 0, b' ', out, 0);
            put_four(0, 0, 0, 0, b'\n', out, middle)
        }
    }
}

// Puts what asking answers in one line, `yes`, `no` or the refusal number: where it ends.
pub fn put_asked(asked: Result<Asked, Refused>, out: &mut [u8]) -> usize
    requires { 21 ≤ length out.old }
    ensures put { Put 0 (asked_line asked) out.old out.new result }
    ensures upper_bound { result ≤ 21 }
{
    match asked {
        Ok(asked) => {
            let covered = asked.covered;
            if covered {
                return copying::copy(b"yes\n", out);
            }
            copying::copy(b"no\n", out)
        }
        Err(Refused { refusal, place: _ }) => put_line(refusal, out),
    }
}

// Puts what a kind of change means and a line end in front: where they end.
fn put_kind(kind: u64, out: &mut [u8]) -> usize
    requires { 39 ≤ length out.old }
    ensures put { Put 0 (kind_words kind) out.old out.new result }
    ensures upper_bound { result ≤ 39 }
{
    if kind == 1 {
        return copying::copy(b" named already, or inside a whole cell\n", out);
    }
    if kind == 2 {
        return copying::copy(b" not above the one right before it\n", out);
    }
    if kind == 3 {
        return copying::copy(b" an empty list\n", out);
    }
    copying::copy(b" whole by its parts\n", out)
}

// Puts the change that stands in a list from `i` on, place and kind, in one line from `at` on, `PLACE KIND: WORDS`: where it ends.
pub fn put_change(list: &[u64], i: usize, out: &mut [u8], at: usize) -> usize
    requires i_in_bounds { i + 1 < length list.now }
    requires at_in_bounds { at + 81 ≤ length out.old }
    ensures put { Put at (change_line (get_or list.now i 0) (get_or list.now (i + 1) 0)) out.old out.new result }
    ensures upper_bound { result ≤ at + 81 }
{
    let place = list[i];
    let kind = list[i + 1];
    let middle = put_number(place, b' ', out, at);
    let end = put_number(kind, b':', out, middle);
    end + put_kind(kind, &mut out[end..])
}

// Puts settings in one line, `n s resolution eccentricity`, from `at` on: where it ends.
pub fn put_settings(settings: Settings, out: &mut [u8], at: usize) -> usize
    requires { at + 84 ≤ length out.old }
    ensures put { Put at (settings_line settings) out.old out.new result }
    ensures upper_bound { result ≤ at + 84 }
{
    put_four(
        settings.n,
        settings.s,
        settings.resolution,
        settings.eccentricity,
        b'\n',
        out,
        at,
    )
}

// Puts one revision, `revision n s resolution eccentricity`: where it ends.
fn put_revision(history: History, revision: u64, out: &mut [u8], at: usize) -> usize
    requires { at + 105 ≤ length out.old }
    ensures put { Put at (revision_line history revision) out.old out.new result }
    ensures upper_bound { result ≤ at + 105 }
{
    let kept = history.kept;
    let place = (revision % 32) as usize;
    let middle = put_number(revision, b' ', out, at);
    put_settings(kept[place], out, middle)
}

// How many revisions are kept.
fn kept_number(newest: u64) -> u64
    ensures value { result ≡ kept_number newest }
    ensures upper_bound { (result ≤ 32) × (result ≤ newest + 1) }
{
    if newest < 31 {
        return newest + 1;
    }
    32
}

// Puts every kept revision, a line each, the newest last: where they end.
pub fn put_history(history: History, out: &mut [u8]) -> usize
    requires { 3360 ≤ length out.old }
    ensures put { Put 0 (history_lines history) out.old out.new result }
    ensures upper_bound { result ≤ 3360 }
{
    let newest = history.newest;
    let mut end: usize = 0;
    for left in (0..kept_number(newest)).rev() {
        end = put_revision(history, newest - left, out, end);
    }
    end
}
