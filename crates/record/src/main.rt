// record n s resolution [eccentricity] [to FILE]: reads a flight, a line `longitude z` for each fix, and writes the coverage text of the cells flown.
// With an eccentricity the lines are `longitude sine` (02 W-203). With a file the text so far is in it too, after each minute's worth of lines. The
// text is all that is held of it. record settings FILE [REVISION] [to FILE]: the same with the settings of a revision, the newest if none is given (02 W-209).
#![tactic(auto)]

ghost use Rattle.std.specs.Prelude.{◌≡◌, ◌⊎◌, true, false, ◌+◌, ◌≤◌, ◌<◌, length, take};
ghost use Rattle.lines.specs.Fold.{OfBytes};
ghost use Rattle.adding.specs.InMind.{InMind};
ghost use Rattle.flight.specs.Setting.{setting_refusal};
ghost use Rattle.flight.specs.Flight.{line_code};
ghost use Rattle.flight.specs.Recording.{taken, Records, with_line, started};
ghost use Rattle.record.specs.Recorded.{changed_by, fix_added, refused_added, Noted, waits_with, waits_after, flown_of, line_count, kept, Checkpointed, FileFits};

use console::LineRead;
use flight::{Recording, Setting};
use std::fs;
use std::io::IsTerminal;
use std::os::unix::fs::FileTypeExt;

// So many lines are a minute of a flight, at twenty fixes a second.
const MINUTE: u64 = 1_200;

// A flight so far: its text, how many fixes were taken, how many lines were refused, with 13 and with another number; and whether the text has
// changed since it was kept.
#[derive(Clone, Copy)]
struct Flight {
    recording: Recording,
    fixes: u64,
    full: u64,
    bad: u64,
    changed: bool,
}

// A file's path of so many bytes; or there is none, or none that can be used.
#[derive(Clone, Copy)]
enum File {
    Path(usize),
    None,
    Wrong,
}

// The flight before its first line.
fn begin(setting: Setting, text: &mut [u8], near: &mut [u64]) -> Flight
    requires { (setting_refusal setting ≡ 0) × (65536 ≤ length text.old) × (length near.old ≡ 3) }
    ensures result_after { flown_of text.new result ≡ started setting }
    ensures records { Records text.new result.recording × (length text.new ≡ length text.old) × (result.changed ≡ false) }
    ensures in_mind { InMind (take result.recording.length text.new) near.new }
{
    let recording = flight::begin(setting.arrangement, text, near);
    Flight {
        recording,
        fixes: 0,
        full: 0,
        bad: 0,
        changed: false, // no line yet
    }
}

// Whether the text has changed since it was kept, with this recording. One cell more changes the text exactly where it changes its length.
fn changed_by(flight: Flight, recording: Recording) -> bool
    ensures { result ≡ changed_by flight recording }
{
    let before = flight.recording;
    if recording.length == before.length {
        return flight.changed;
    }
    true
}

// The flight with a fix.
fn with_fix(flight: Flight, recording: Recording) -> Flight
    requires { line_count flight < 18446744073709551615 }
    ensures { fix_added flight recording result }
{
    let changed = changed_by(flight, recording);
    Flight {
        recording,
        fixes: flight.fixes + 1,
        full: flight.full,
        bad: flight.bad,
        changed, // by the fix
    }
}

// The flight with a refused line.
fn with_refused(flight: Flight, refusal: u64) -> Flight
    requires { line_count flight < 18446744073709551615 }
    ensures { refused_added flight refusal result }
{
    let recording = flight.recording;
    if refusal == 13 {
        return Flight {
            recording,
            fixes: flight.fixes,
            full: flight.full + 1,
            bad: flight.bad,
            changed: flight.changed,
        };
    }
    Flight {
        recording,
        fixes: flight.fixes,
        full: flight.full,
        bad: flight.bad + 1,
        changed: flight.changed,
    }
}

// A refused line is said at once where there is no room for it to wait in. Where that room is full, it is only counted.
fn say_refused(rt: &HostRuntime, number: u64, refusal: u64, waits: &mut [u64])
    ensures { waits.new ≡ waits_with number refusal waits.old }
{
    if waits.len() < 3 {
        console::say_line(rt, b"record", number, refusal);
        return;
    }
    let taken = waits[0] as usize;
    if taken > waits.len() - 3 {
        return;
    }
    waits[taken + 1] = number;
    waits[taken + 2] = refusal;
    waits[0] = (taken + 2) as u64;
}

// One line, with its number. A line that is refused is said, or will be, and the flight goes on.
fn record_line(
    rt: &HostRuntime,
    setting: Setting,
    line: &[u8],
    number: u64,
    text: &mut [u8],
    flight: Flight,
    near: &mut [u64],
    waits: &mut [u64],
) -> Flight
    requires { Records text.old flight.recording × (number ≡ line_count flight + 1) × InMind (take flight.recording.length text.old) near.old }
    ensures result_after { flown_of text.new result ≡ with_line setting (length text.old) (flown_of text.old flight) line.now }
    ensures records { Records text.new result.recording × InMind (take result.recording.length text.new) near.new }
    ensures noted { Noted text.old flight text.new result }
    ensures waits_after { waits.new ≡ waits_after number (taken (line_code setting line.now) (length text.old) (take flight.recording.length text.old)) waits.old }
{
    match flight::take_line(setting, line, text, flight.recording, near) {
        Ok(recording) => with_fix(flight, recording),
        Err(refusal) => {
            say_refused(rt, number, refusal, waits);
            with_refused(flight, refusal)
        }
    }
}

// Keeps the text in its file, if there is one.
fn keep_text(rt: &HostRuntime, path: &[u8], text: &[u8], flight: Flight) -> Flight
    requires { (length path.now ≤ 4096) × (flight.recording.length ≤ length text.now) }
    ensures { (result ≡ flight) ⊎ (result ≡ kept flight) }
{
    let recording = flight.recording;
    if path.len() == 0 {
        return flight;
    }
    if !console::keep(rt, b"record", path, &text[..recording.length]) {
        return flight;
    }
    Flight {
        recording,
        fixes: flight.fixes,
        full: flight.full,
        bad: flight.bad,
        changed: false, // it is in the file
    }
}

// The same on the way, where nothing is kept but a text that has changed.
fn keep_changed(rt: &HostRuntime, path: &[u8], text: &[u8], flight: Flight) -> Flight
    requires { (length path.now ≤ 4096) × (flight.recording.length ≤ length text.now) × (flight.changed ≡ true) }
    ensures { (result ≡ flight) ⊎ (result ≡ kept flight) }
{
    keep_text(rt, path, text, flight)
}

// The same after each minute's worth of lines in which the text has changed.
fn checkpoint(rt: &HostRuntime, path: &[u8], text: &[u8], number: u64, flight: Flight) -> Flight
    requires { (length path.now ≤ 4096) × (flight.recording.length ≤ length text.now) }
    ensures { Checkpointed number flight result }
{
    if number % MINUTE != 0 {
        return flight;
    }
    if !flight.changed {
        return flight;
    }
    keep_changed(rt, path, text, flight)
}

// All lines of the flight, or where the input fails those that ended before. No flight has so many lines.
fn record_all(
    rt: &HostRuntime,
    setting: Setting,
    path: &[u8],
    bytes: &mut [u8],
    room: &mut [u8],
    text: &mut [u8],
    first: Flight,
    near: &mut [u64],
    waits: &mut [u64],
) -> Flight
    requires { (43 ≤ length room.old) × Records text.old first.recording × (flown_of text.old first ≡ started setting) × (length path.now ≤ 4096) × InMind (take first.recording.length text.old) near.old }
    ensures of_bytes { OfBytes (with_line setting (length text.old)) (started setting) (flown_of text.new result) }
    ensures records { Records text.new result.recording }
{
    let mut from: usize = 0;
    let mut end: usize = 0;
    let mut flight = first;
    let mut number: u64 = 0;
    while number < u64::MAX {
        number = number + 1;
        match console::next_line(rt, b"record", bytes, from, end, room) {
            LineRead::Line {
                length,
                from: next,
                end: stop,
            } => {
                let with_line = record_line(
                    rt,
                    setting,
                    &room[..length],
                    number,
                    text,
                    flight,
                    near,
                    waits,
                );
                flight = checkpoint(rt, path, text, number, with_line);
                from = next;
                end = stop;
            }
            LineRead::Last { length } => {
                return record_line(
                    rt,
                    setting,
                    &room[..length],
                    number,
                    text,
                    flight,
                    near,
                    waits,
                );
            }
            LineRead::End => return flight,
            LineRead::Failed => return flight,
        }
    }
    flight
}

// Whether words cannot end the program, as they do where standard error is a pipe that nobody reads any more: it is a terminal, or another device, or a file.
fn says_at_once(rt: &HostRuntime) -> bool {
    if rt.stderr().is_terminal() {
        return true;
    }
    let Ok(words) = fs::metadata(rt, "/proc/self/fd/2") else {
        return false;
    };
    let kind = words.file_type();
    kind.is_file() || kind.is_char_device() || kind.is_block_device()
}

// Room for 256 refused lines to wait in until the text is written, or none.
fn room_to_wait(rt: &HostRuntime) -> usize
    ensures { result ≤ 513 }
{
    if says_at_once(rt) {
        return 0;
    }
    513
}

// The refused lines that waited.
fn say_waiting(rt: &HostRuntime, waits: &[u64]) {
    let mut i: usize = 1;
    // by hand: a line and its refusal are two numbers
    while i + 1 < waits.len() {
        if waits[0] as usize <= i {
            return;
        }
        console::say_line(rt, b"record", waits[i], waits[i + 1]);
        i += 2;
    }
    if waits.len() > 0 {
        console::say(rt, b"record: any further refused lines are only counted\n");
    }
}

// So many, in words for one and for more.
fn say_count(rt: &HostRuntime, count: u64, one: &[u8], more: &[u8]) {
    console::say_whole(rt, count);
    if count == 1 {
        console::say(rt, one);
        return;
    }
    console::say(rt, more);
}

// How many fixes were taken, and how many lines refused, by number.
fn say_counts(rt: &HostRuntime, flight: Flight) {
    console::say(rt, b"record: ");
    say_count(rt, flight.fixes, b" fix taken, ", b" fixes taken, ");
    say_count(
        rt,
        flight.bad,
        b" line refused with 6, ",
        b" lines refused with 6, ",
    );
    console::say_whole(rt, flight.full);
    console::say(rt, b" with 13\n");
}

// How many words come before `to FILE`, of so many. These are three or more, the program's own name among them.
fn words_before(rt: &HostRuntime, count: usize) -> usize
    ensures { result ≤ count }
{
    if count < 5 {
        return count;
    }
    if console::argument_is(rt, count - 2, b"to") {
        return count - 2;
    }
    count
}

// The file named by the last of so many words, if it is named.
fn file_given(rt: &HostRuntime, words: usize, count: usize, path: &mut [u8]) -> File
    ensures { FileFits path.new result }
{
    if words >= count {
        return File::None;
    }
    let Ok(length) = console::argument(rt, count - 1, path) else {
        return File::Wrong; // too long
    };
    if length == 0 {
        return File::Wrong; // none
    }
    File::Path(length)
}

fn say_usage(rt: &HostRuntime) {
    console::say(
        rt,
        b"usage: record n s resolution [eccentricity] [to FILE] < flight > text\n       record settings FILE [REVISION] [to FILE] < flight > text\n",
    );
    console::say(
        rt,
        b"  n and s are 0 to 3, the resolution is 0 to 15; a flight has a line `longitude z` for each fix\n",
    );
    console::say(
        rt,
        b"  with a squared eccentricity, 0 to 10000000000 in units of 10^-12, the lines are `longitude sine`; so they are with settings\n",
    );
    console::say(
        rt,
        b"  with a file the text so far is in it too, after each 1200 lines and at the end\n",
    );
}

// The flight from its first line to its last, and what it came to.
fn record_flight(rt: &HostRuntime, setting: Setting, path: &[u8], waits: &mut [u64])
    requires { (setting_refusal setting ≡ 0) × (length path.now ≤ 4096) }
{
    let mut bytes = [0u8; 4096];
    let mut room = [0u8; 64];
    let mut text = [0u8; 65536];
    let mut near = [0u64; 3];
    let first = begin(setting, &mut text, &mut near);
    let flight = record_all(
        rt, setting, path, &mut bytes, &mut room, &mut text, first, &mut near, waits,
    );
    keep_text(rt, path, &text, flight);
    console::print_first(rt, &text, flight.recording.length);
    say_waiting(rt, waits);
    say_counts(rt, flight);
}

// The same, with room for refused lines to wait in.
fn record_to(rt: &HostRuntime, setting: Setting, path: &[u8])
    requires { (setting_refusal setting ≡ 0) × (length path.now ≤ 4096) }
{
    let mut waits = [0u64; 513];
    let many = room_to_wait(rt);
    record_flight(rt, setting, path, &mut waits[..many]);
}

fn main(rt: HostRuntime) {
    let rt = &rt;
    let count = console::argument_count(rt);
    let words = words_before(rt, count);
    let Some(setting) = console::setting_in(rt, b"record", words) else {
        say_usage(rt);
        return;
    };
    let mut path = [0u8; 4080];
    match file_given(rt, words, count, &mut path) {
        File::Path(length) => record_to(rt, setting, &path[..length]),
        File::None => record_to(rt, setting, &path[..0]),
        File::Wrong => say_usage(rt),
    }
}
