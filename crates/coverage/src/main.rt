// coverage check FILE, coverage list FILE, coverage ask FILE NAME, coverage frame FILE SIDE, coverage summary FILE [NAME], coverage sheet FILE [SHEET],
// coverage rescue FILE, coverage write n s [depth]: reads and writes coverage texts.
#![tactic(auto)]

ghost use Rattle.std.specs.Prelude.{◌≡◌, ◌≤◌, length, take};
ghost use Rattle.cell.specs.Cell.{IsArrangement};
ghost use Rattle.reader.specs.Check.{checked_of};
ghost use Rattle.listing.specs.List.{listing_refusal};
ghost use Rattle.proper.specs.Proper.{proper_of};
ghost use Rattle.console.specs.Input.{Fits};
ghost use Rattle.loose.specs.Look.{loose_refusal};
ghost use Rattle.rescue.specs.Rescue.{changes_of};
ghost use Rattle.console.specs.Room.{start_for};
ghost use Rattle.report.specs.Put.{Put};
ghost use Rattle.report.specs.Lines.{check_line, asked_line};
ghost use Rattle.coverage.specs.Names.{NameTaken, AllTaken};
ghost use Rattle.coverage.specs.Own.{Own};
ghost use Rattle.coverage.specs.Printed.{asked_name, waits, ListWritten, TextWritten, NamesText};
ghost use Rattle.coverage.specs.Rescued.{RescueLeft, ChangesWritten, ChangesIn};

use asking::Asked;
use cell::Arrangement;
use console::LineRead;
use reader::Checked;
use reading::Refused;
use rescue::Rescued;
use sheet::Judged;

// What the first argument asks for.
#[derive(Clone, Copy)]
enum Command {
    Check,
    List,
    Ask,
    Rescue,
    Frame,
    Sheet,
    Summary,
    Question,
    Write,
    Unknown,
}

// How many codes are held of the names read; or a line stopped the reading; or the input failed.
#[derive(Clone, Copy)]
enum NamesRead {
    Count(usize),
    Stopped(u64),
    Failed,
}

// How many bytes of a text stand in front; or the list is refused; or no list was read.
#[derive(Clone, Copy)]
enum Text {
    Length(usize),
    Refused(u64),
    None,
}

// What text is asked for: its version, its depth, n and s.
#[derive(Clone, Copy)]
struct Form {
    version: u64,
    depth: u64,
    arrangement: Arrangement,
}

// A line that waits in front of its room up to `end`; and the refusal that is to be said with it, 0 for none, with its place.
#[derive(Clone, Copy)]
struct Shown {
    end: usize,
    refusal: u64,
    place: u64,
}

// What a rescue left in front of its rooms: so many bytes of the text, and so many numbers of what was changed; or a refusal, with its place.
#[derive(Clone, Copy)]
struct RescueRooms {
    end: usize,
    numbers: usize,
    refusal: u64,
    place: u64,
}

fn usage(rt: &HostRuntime) {
    console::say(
        rt,
        b"usage: coverage check FILE | list FILE | ask FILE NAME | frame FILE SIDE\n",
    );
    console::say(
        rt,
        b"       coverage sheet FILE > sheet | sheet FILE SHEET\n",
    );
    console::say(
        rt,
        b"       coverage summary FILE [NAME] | rescue FILE > text\n",
    );
    console::say(rt, b"       coverage write n s [depth] < names > text\n");
    console::say(
        rt,
        b"  n and s are 0 to 3; names stand one a line, rising, none inside another;\n",
    );
    console::say(
        rt,
        b"  with a depth, 0 to 15, the text is for handhelds: N and S whole, nothing deeper\n",
    );
    console::say(
        rt,
        b"  SIDE is a face's side in metres, 1 to 1073741824, such as 10007557.2\n",
    );
    console::say(
        rt,
        b"  a sheet has for each cell its code and its neighbours' up, right, down, left\n",
    );
}

// The line to standard output, then what a refusal means to standard error.
fn show(rt: &HostRuntime, shown: Shown, out: &[u8])
    requires { shown.end ≤ length out.now }
{
    let refusal = shown.refusal;
    console::print_first(rt, out, shown.end);
    if refusal != 0 {
        console::say_text(rt, b"coverage", refusal, shown.place);
    }
}

// A refusal: its number to standard output, what it means to standard error.
fn refuse(rt: &HostRuntime, refusal: u64, place: u64) {
    let mut out = [0u8; 21];
    let end = report::put_line(refusal, &mut out);
    show(
        rt,
        Shown {
            end,
            refusal,
            place,
        },
        &out,
    );
}

// check: the line of what the reader answers, in front.
fn check_text(text: &[u8], out: &mut [u8]) -> Shown
    requires { 168 ≤ length out.old }
    ensures put { Put 0 (check_line (checked_of text.now)) out.old out.new result.end }
    ensures end_bound { result.end ≤ 168 }
{
    let checked = reader::check(text);
    let end = report::put_check(checked, out);
    let Err(Refused { refusal, place }) = checked else {
        return Shown {
            end,
            refusal: 0,
            place: 0,
        };
    };
    Shown {
        end,
        refusal,
        place,
    }
}

// How much waits in front: nothing where printing failed, for then nothing more is to be printed.
fn waiting(room: Option<usize>) -> usize
    ensures { result ≡ waits room }
{
    match room {
        Some(end) => end,
        None => 0,
    }
}

// list: the names of the whole cells, or the refusal's line: what is left of them in front, behind what was printed.
fn list_text(rt: &HostRuntime, text: &[u8], codes: &mut [u64], out: &mut [u8]) -> Shown
    requires { 21 ≤ length out.old }
    ensures list_written { ListWritten (listing_refusal text.now (length codes.old)) text.now out.new result.end }
    ensures end_in_bounds { result.end ≤ length out.new }
{
    match listing::list(text, codes) {
        Ok(count) => Shown {
            end: waiting(console::put_all_names(rt, &codes[..count as usize], out)),
            refusal: 0,
            place: 0,
        },
        Err(Refused { refusal, place }) => Shown {
            end: report::put_line(refusal, out),
            refusal,
            place,
        },
    }
}

// The text's own arrangement. Where the text is refused any will do, for then asking refuses it whatever the code's is.
fn own_arrangement(text: &[u8]) -> Arrangement
    ensures { Own text.now result }
{
    match reader::check(text) {
        Ok(checked) => checked.arrangement,
        Err(Refused { .. }) => Arrangement { north: 0, south: 0 },
    }
}

// Whether the text covers the cell of a name. The name is tested first.
fn ask_name(text: &[u8], name: &[u8]) -> Result<Asked, Refused>
    ensures { result ≡ asked_name text.now name.now }
{
    match name::name_code(own_arrangement(text), name) {
        Ok(code) => asking::ask(text, code),
        Err(refusal) => Err(Refused { refusal, place: 0 }),
    }
}

// ask: the line of what is answered, in front.
fn ask_text(text: &[u8], name: &[u8], out: &mut [u8]) -> Shown
    requires { 21 ≤ length out.old }
    ensures put { Put 0 (asked_line (asked_name text.now name.now)) out.old out.new result.end }
    ensures end_bound { result.end ≤ 21 }
{
    let asked = ask_name(text, name);
    let end = report::put_asked(asked, out);
    let Err(Refused { refusal, place }) = asked else {
        return Shown {
            end,
            refusal: 0,
            place: 0,
        };
    };
    Shown {
        end,
        refusal,
        place,
    }
}

// One line: a name, whose code is gathered with the others. One that is none, or that has no room, is said.
fn take_name(
    arrangement: Arrangement,
    line: &[u8],
    codes: &mut [u64],
    count: usize,
) -> Result<usize, u64>
    requires arrangement { IsArrangement arrangement }
    requires count_in_bounds { count ≤ length codes.old }
    ensures { NameTaken arrangement line.now codes.old count codes.new result }
{
    let length = decimal::trimmed_length(line);
    match name::name_code(arrangement, &line[..length]) {
        Ok(code) => {
            if count < codes.len() {
                return Ok(gathering::gather(arrangement, codes, count, code));
            }
            Err(13)
        }
        Err(refusal) => Err(refusal),
    }
}

// All lines of the input, up to the first that stops it. With room for so many codes 13 is right where there is none left, whatever would follow. A loop has to end,
// and nothing says that an input does.
fn take_all(
    rt: &HostRuntime,
    arrangement: Arrangement,
    bytes: &mut [u8],
    room: &mut [u8],
    codes: &mut [u64],
) -> NamesRead
    requires arrangement { IsArrangement arrangement }
    requires in_bounds { 18 ≤ length room.old }
    requires in_bounds_2 { 65650 ≤ length codes.old }
    ensures { AllTaken arrangement (length codes.old) codes.new result }
{
    let mut from: usize = 0;
    let mut end: usize = 0;
    let mut count: usize = 0;
    let mut line: u64 = 0;
    while line < u64::MAX {
        match console::next_line(rt, b"coverage", bytes, from, end, room) {
            LineRead::Line {
                length,
                from: next,
                end: stop,
            } => {
                match take_name(arrangement, &room[..length], codes, count) {
                    Ok(more) => {
                        count = more;
                        from = next;
                        end = stop;
                        line = line + 1;
                    }
                    Err(refusal) => {
                        console::say_line(rt, b"coverage", line + 1, refusal);
                        return NamesRead::Stopped(refusal);
                    }
                }
            }
            LineRead::Last { length } => {
                match take_name(arrangement, &room[..length], codes, count) {
                    Ok(more) => return NamesRead::Count(more),
                    Err(refusal) => {
                        console::say_line(rt, b"coverage", line + 1, refusal);
                        return NamesRead::Stopped(refusal);
                    }
                }
            }
            LineRead::End => return NamesRead::Count(count),
            LineRead::Failed => return NamesRead::Failed,
        }
    }
    NamesRead::Failed // no input has so many lines
}

// The text of the names read, whole or not at all.
fn put_text(form: Form, codes: &[u64], count: usize, text: &mut [u8]) -> Text
    requires { count ≤ length codes.now }
    ensures { TextWritten form (take count codes.now) (length text.old) text.new result }
{
    match writing::write(
        form.version,
        form.depth,
        form.arrangement,
        &codes[..count],
        text,
    ) {
        Ok(length) => Text::Length(length as usize),
        Err(refusal) => Text::Refused(refusal),
    }
}

// write: the text of the names read, in the arrangement that they were read in. Where a line stopped the reading, or the input failed, there is none.
fn names_text(form: Form, read: NamesRead, codes: &[u64], text: &mut [u8]) -> Text
    requires arrangement { IsArrangement form.arrangement }
    requires all_taken { AllTaken form.arrangement (length codes.now) codes.now read }
    ensures { NamesText form codes.now read (length text.old) text.new result }
{
    match read {
        NamesRead::Count(count) => put_text(form, codes, count, text),
        NamesRead::Stopped(_) => Text::None,
        NamesRead::Failed => Text::None,
    }
}

// The names are read, so their room is the text's.
fn write_text(rt: &HostRuntime, form: Form)
    requires { IsArrangement form.arrangement }
{
    let mut bytes = [0u8; 65536];
    let mut room = [0u8; 64];
    let mut codes = [0u64; 65680]; // 144 more than whole cells in the longest text: so many may still merge
    let read = take_all(rt, form.arrangement, &mut bytes, &mut room, &mut codes);
    match names_text(form, read, &codes, &mut bytes) {
        Text::Length(length) => console::print_first(rt, &bytes, length),
        Text::Refused(refusal) => console::say_text(rt, b"coverage", refusal, 0),
        Text::None => {}
    }
}

// The depth asked for, behind n and s. A bad one is said.
fn write_depth(rt: &HostRuntime, arrangement: Arrangement)
    requires { IsArrangement arrangement }
{
    if console::argument_count(rt) == 4 {
        write_text(
            rt,
            Form {
                version: 1,
                depth: 15,
                arrangement,
            },
        );
        return;
    }
    let Some(depth) = console::whole_argument(rt, 4) else {
        usage(rt);
        return;
    };
    if depth > 15 {
        console::say_text(rt, b"coverage", 2, 0);
        usage(rt);
        return;
    }
    write_text(
        rt,
        Form {
            version: 2,
            depth,
            arrangement,
        },
    );
}

// coverage write n s [depth].
fn write_names(rt: &HostRuntime) {
    let Some(north) = console::whole_argument(rt, 2) else {
        usage(rt);
        return;
    };
    let Some(south) = console::whole_argument(rt, 3) else {
        usage(rt);
        return;
    };
    let arrangement = Arrangement { north, south };
    let refusal = arrangement.refusal();
    if refusal != 0 {
        console::say_text(rt, b"coverage", refusal, 0);
        usage(rt);
        return;
    }
    write_depth(rt, arrangement);
}

// coverage ask FILE NAME. A name that the room is too short for is over 16 bytes.
fn ask_file(rt: &HostRuntime, text: &[u8]) {
    let mut word = [0u8; 64];
    let Ok(n) = console::argument(rt, 3, &mut word) else {
        refuse(rt, 2, 0);
        return;
    };
    let mut out = [0u8; 21];
    let shown = ask_text(text, &word[..n], &mut out);
    show(rt, shown, &out);
}

// coverage frame FILE SIDE. A side that the room is too short for has over 15 digits.
fn frame_file(rt: &HostRuntime, text: &[u8]) {
    let mut word = [0u8; 64];
    let Ok(n) = console::argument(rt, 3, &mut word) else {
        refuse(rt, 19, 0);
        return;
    };
    let mut codes = [0u64; 65536];
    let mut out = [0u8; 68];
    let put = framing::put_frame(text, &word[..n], &mut codes, &mut out);
    show(
        rt,
        Shown {
            end: put.end,
            refusal: put.refusal,
            place: put.place,
        },
        &out,
    );
}

// coverage sheet FILE: the sheet to standard output. Where the text is refused nothing goes there, and standard error says why.
fn write_sheet(rt: &HostRuntime, text: &[u8]) {
    let mut out = [0u8; 65520];
    let put = sheet_parts::put_sheet(rt, text, &mut out);
    show(
        rt,
        Shown {
            end: put.end,
            refusal: put.refusal,
            place: put.place,
        },
        &out,
    );
}

// The line of what checking a sheet answers; and what a refusal means.
fn show_judged(rt: &HostRuntime, judged: Judged) {
    let mut out = [0u8; 24];
    let end = sheet_parts::put_judged(judged, &mut out);
    console::print_first(rt, &out, end);
    let Judged::Refused { refusal, place } = judged else {
        return;
    };
    console::say_text(rt, b"coverage", refusal, place);
}

// The sheet with a path, beside a text. One that cannot be opened counts as empty, and standard error says why.
fn judge_sheet(rt: &HostRuntime, text: &[u8], path: &[u8]) -> Judged {
    match console::open(rt, path) {
        Err(error) => {
            console::say_failure(rt, b"coverage", path, &error);
            sheet::check(text, b"")
        }
        Ok(mut file) => {
            let mut part = [0u8; 65520];
            sheet_parts::judge_file(rt, text, &mut file, path, &mut part)
        }
    }
}

// coverage sheet FILE SHEET. A path that there is no room for counts as one of a file that cannot be opened.
fn check_sheet(rt: &HostRuntime, text: &[u8]) {
    let mut path = [0u8; 4096];
    let judged = match console::argument(rt, 3, &mut path) {
        Err(error) => {
            console::say_failure(rt, b"coverage", b"SHEET", &error);
            sheet::check(text, b"")
        }
        Ok(n) => judge_sheet(rt, text, &path[..n]),
    };
    show_judged(rt, judged);
}

fn sheet_file(rt: &HostRuntime, text: &[u8]) {
    if console::argument_count(rt) == 3 {
        write_sheet(rt, text);
        return;
    }
    check_sheet(rt, text);
}

// coverage summary FILE.
fn summary_file(rt: &HostRuntime, text: &[u8]) {
    let mut out = [0u8; 29160];
    let put = districts::put_summary(text, &mut out);
    show(
        rt,
        Shown {
            end: put.end,
            refusal: put.refusal,
            place: put.place,
        },
        &out,
    );
}

// coverage summary FILE NAME. A name that the room is too short for is over 16 bytes.
fn question_file(rt: &HostRuntime, text: &[u8]) {
    let mut word = [0u8; 64];
    let Ok(n) = console::argument(rt, 3, &mut word) else {
        refuse(rt, 2, 0);
        return;
    };
    let mut out = [0u8; 21];
    let put = districts::put_question(text, &word[..n], &mut out);
    show(
        rt,
        Shown {
            end: put.end,
            refusal: put.refusal,
            place: put.place,
        },
        &out,
    );
}

fn list_file(rt: &HostRuntime, text: &[u8]) {
    let mut codes = [0u64; 65536];
    let mut out = [0u8; 65536];
    let shown = list_text(rt, text, &mut codes, &mut out);
    show(rt, shown, &out);
}

fn check_file(rt: &HostRuntime, text: &[u8]) {
    let mut out = [0u8; 168];
    let shown = check_text(text, &mut out);
    show(rt, shown, &out);
}

// Where the line of a change has room, behind the first `end` bytes. Where it has none there, all of these go to standard error first.
fn line_room(rt: &HostRuntime, lines: &[u8], end: usize) -> usize
    requires { end ≤ length lines.now }
    ensures { result ≡ start_for (length lines.now) end 81 }
{
    if lines.len() - end < 81 {
        console::say(rt, &lines[..end]);
        return 0; // all were said
    }
    end
}

// A line for each change, place, kind and what it means: what is left of them in front, behind what went to standard error.
fn say_changes(rt: &HostRuntime, list: &[u64], lines: &mut [u8]) -> usize
    requires { 81 ≤ length lines.old }
    ensures { ChangesIn list.now lines.new result }
{
    let mut i: usize = 0;
    let mut end: usize = 0;
    // by hand: a change is two numbers
    while i + 1 < list.len() {
        let at = line_room(rt, lines, end);
        end = report::put_change(list, i, lines, at);
        i = i + 2;
    }
    end
}

// Why there is no proper text. Rescue takes version 1 only.
fn say_unrescued(rt: &HostRuntime, refusal: u64, place: u64) {
    if refusal == 10 {
        console::say(
            rt,
            b"coverage: refusal 10: rescue takes texts of version 1 only\n",
        );
        return;
    }
    console::say_text(rt, b"coverage", refusal, place);
}

// rescue: the proper text in front of one room, what was changed in front of the other. Both rooms are enough for any text.
fn rescue_text(text: &[u8], out: &mut [u8], list: &mut [u64]) -> RescueRooms
    requires in_bounds { 65536 ≤ length out.old }
    requires in_bounds_2 { 262144 ≤ length list.old }
    ensures { RescueLeft (loose_refusal text.now) text.now out.new list.new result }
{
    match rescue::rescue(text, out, list) {
        Ok(Rescued { length, changes }) => RescueRooms {
            end: length as usize,
            numbers: changes as usize * 2, // place and kind
            refusal: 0,
            place: 0,
        },
        Err(Refused { refusal, place }) => RescueRooms {
            end: 0,
            numbers: 0,
            refusal, // as it is given
            place,
        },
    }
}

// The first bytes of a buffer to standard output: they must be the proper text of this one.
fn print_proper(rt: &HostRuntime, text: &[u8], out: &[u8], end: usize)
    requires end_in_bounds { end ≤ length out.now }
    requires out_value { take end out.now ≡ proper_of text.now }
{
    console::print_first(rt, out, end);
}

// The first bytes of a buffer to standard error: they must be what is left of the lines of this text's changes.
fn say_last(rt: &HostRuntime, text: &[u8], lines: &[u8], end: usize)
    requires { ChangesWritten (changes_of text.now) lines.now end }
{
    console::say(rt, &lines[..end]);
}

// The proper text to standard output, what was changed to standard error. Where it is refused nothing goes to standard output.
fn show_rescued(rt: &HostRuntime, text: &[u8], rooms: RescueRooms, out: &[u8], list: &[u64])
    requires { RescueLeft rooms.refusal text.now out.now list.now rooms }
{
    let refusal = rooms.refusal;
    if refusal != 0 {
        say_unrescued(rt, refusal, rooms.place);
        return;
    }
    print_proper(rt, text, out, rooms.end);
    let numbers = rooms.numbers;
    let mut lines = [0u8; 65536];
    let end = say_changes(rt, &list[..numbers], &mut lines);
    say_last(rt, text, &lines, end);
}

// coverage rescue FILE. Two changes for each byte are the most, and a change is two numbers.
fn rescue_file(rt: &HostRuntime, text: &[u8]) {
    let mut out = [0u8; 65536];
    let mut list = [0u64; 262144];
    let rooms = rescue_text(text, &mut out, &mut list);
    show_rescued(rt, text, rooms, &out, &list);
}

// The commands that read a file.
fn answer(rt: &HostRuntime, command: Command, text: &[u8]) {
    match command {
        Command::Check => check_file(rt, text),
        Command::List => list_file(rt, text),
        Command::Rescue => rescue_file(rt, text),
        Command::Frame => frame_file(rt, text),
        Command::Sheet => sheet_file(rt, text),
        Command::Summary => summary_file(rt, text),
        Command::Question => question_file(rt, text),
        _ => ask_file(rt, text),
    }
}

// The file that is named, into a room that is longer than any text: of a longer file there is a byte more than a text has.
fn load_text(rt: &HostRuntime, path: &mut [u8], text: &mut [u8]) -> Option<usize>
    requires { 65537 ≤ length text.old }
    ensures { Fits text.new result }
{
    console::load(rt, b"coverage", 2, path, text)
}

fn answer_file(rt: &HostRuntime, command: Command) {
    let mut path = [0u8; 4096];
    let mut text = [0u8; 65537];
    let Some(count) = load_text(rt, &mut path, &mut text) else {
        return;
    };
    answer(rt, command, &text[..count]);
}

// The command that a word names, with as many arguments as it takes.
fn command_of(word: &[u8], arguments: usize) -> Command {
    if check::same(word, b"check") && arguments == 3 {
        return Command::Check;
    }
    if check::same(word, b"list") && arguments == 3 {
        return Command::List;
    }
    if check::same(word, b"ask") && arguments == 4 {
        return Command::Ask;
    }
    if check::same(word, b"rescue") && arguments == 3 {
        return Command::Rescue;
    }
    if check::same(word, b"frame") && arguments == 4 {
        return Command::Frame;
    }
    if check::same(word, b"sheet") && (arguments == 3 || arguments == 4) {
        return Command::Sheet;
    }
    if check::same(word, b"summary") && arguments == 3 {
        return Command::Summary;
    }
    if check::same(word, b"summary") && arguments == 4 {
        return Command::Question;
    }
    if check::same(word, b"write") && (arguments == 4 || arguments == 5) {
        return Command::Write;
    }
    Command::Unknown
}

fn main(rt: HostRuntime) {
    let rt = &rt;
    let mut word = [0u8; 8];
    let Ok(n) = console::argument(rt, 1, &mut word) else {
        usage(rt); // none, or one that is too long
        return;
    };
    let command = command_of(&word[..n], console::argument_count(rt));
    match command {
        Command::Unknown => usage(rt),
        Command::Write => write_names(rt),
        _ => answer_file(rt, command),
    }
}
