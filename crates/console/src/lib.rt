// What the programs share: words for people on standard error, arguments, and input and output that can fail.
#![tactic(auto)]

ghost use Rattle.std.specs.Prelude.{◌≡◌, true, ◌+◌, ◌≤◌, ◌<◌, length, take, IfOk};
ghost use Rattle.console.specs.Arguments.{latitude_given, setting_given, judged, OfWord, Usable};
ghost use Rattle.console.specs.Beside.{beside_of, Folder};
ghost use Rattle.console.specs.History.{loaded_from, OfBytes, revision_wanted, setting_at, setting_wanted};
ghost use Rattle.console.specs.Input.{unread, Given, Fits, last_line};
ghost use Rattle.console.specs.Room.{Made};
ghost use Rattle.console.specs.Names.{NamesIn};

use cell::Arrangement;
use flight::{Latitude, Setting};
use history::History;
use lines::Reached;
use std::env::{Env, FillError};
use std::fmt::Write as _;
use std::fs::{File, OpenOptions};
use std::io::{ErrorKind, Read, Write};
use std::{fmt, fs, io, str};

// A history that was read from a file, or that there is none.
#[derive(Clone, Copy)]
pub struct Loaded {
    pub done: bool,
    pub history: History,
}

// A line that ended: so many bytes of it stand in its room, and the bytes read behind it from one place up to another. Or the last line, which
// has no end; or no further line; or reading failed.
#[derive(Clone, Copy)]
pub enum LineRead {
    Line {
        length: usize,
        from: usize,
        end: usize,
    },
    Last {
        length: usize,
    },
    End,
    Failed,
}

// Room for what an error prints, and how much of it stands in front.
struct Words<'a> {
    room: &'a mut [u8],
    length: usize,
}

impl fmt::Write for Words<'_> {
    fn write_str(&mut self, s: &str) -> fmt::Result {
        for byte in s.as_bytes() {
            if self.length < self.room.len() {
                self.room[self.length] = *byte;
                self.length += 1;
            }
        }
        Ok(())
    }
}

// To standard error. Where that fails nothing can be said.
pub fn say(rt: &HostRuntime, text: &[u8]) {
    let _ = Print::write_all(&rt.stderr(), text);
}

// How many of some bytes are the system's own words: behind them an error prints its number in brackets.
fn words_of(bytes: &[u8]) -> usize
    ensures { result ≤ length bytes.now }
{
    for n in (1..bytes.len()).rev() {
        if bytes[n] == b'(' {
            return n - 1;
        }
    }
    bytes.len()
}

// The first bytes of what an error prints, to standard error: of one that the system gives, its own words.
fn say_words(rt: &HostRuntime, error: &io::Error, bytes: &[u8], length: usize) {
    if length > bytes.len() {
        return;
    }
    let printed = &bytes[..length];
    let mut n = length;
    if error.raw_os_error().is_some() {
        n = words_of(printed);
    }
    say(rt, &printed[..n]);
}

// Why something failed, to standard error.
fn say_why(rt: &HostRuntime, error: &io::Error) {
    let mut bytes = [0u8; 128];
    let mut words = Words {
        room: &mut bytes,
        length: 0,
    };
    let _ = write!(words, "{error}");
    let Words { room, length } = words;
    say_words(rt, error, room, length);
}

// What failed, and why, to the end of the line.
fn say_failed(rt: &HostRuntime, what: &[u8], error: &io::Error) {
    say(rt, what);
    say(rt, b": ");
    say_why(rt, error);
    say(rt, b"\n");
}

// Whether all of it went to standard output. Where that fails, standard error says why, unless it is a pipe and whoever read it has left.
fn printed(rt: &HostRuntime, text: &[u8]) -> bool {
    match Print::write_all(rt, text) {
        Ok(()) => true,
        Err(error) => {
            if error.kind() != ErrorKind::BrokenPipe {
                say_failed(rt, b"standard output", &error);
            }
            false
        }
    }
}

// To standard output.
pub fn print(rt: &HostRuntime, text: &[u8]) {
    printed(rt, text);
}

// Whether the first bytes of a buffer went to standard output.
pub fn printed_first(rt: &HostRuntime, buf: &[u8], count: usize) -> bool
    requires { count ≤ length buf.now }
{
    printed(rt, &buf[..count])
}

// The first bytes of a buffer, to standard output.
pub fn print_first(rt: &HostRuntime, buf: &[u8], count: usize)
    requires { count ≤ length buf.now }
{
    print(rt, &buf[..count]);
}

// Room for `size` bytes more behind the first `at`. Where there is none, all of these are printed first.
pub fn make_room(rt: &HostRuntime, out: &[u8], at: usize, size: usize) -> Option<usize>
    requires { at ≤ length out.now }
    ensures { Made (length out.now) at size result }
{
    if out.len() - at < size {
        if printed(rt, &out[..at]) {
            return Some(0);
        }
        return None;
    }
    Some(at)
}

// The names of codes, one a line: what is left of them in front, behind what was printed. Where printing fails no further name is put.
pub fn put_all_names(rt: &HostRuntime, codes: &[u64], out: &mut [u8]) -> Option<usize>
    requires { 17 ≤ length out.old }
    ensures { NamesIn codes.now out.new result }
{
    let mut from: usize = 0;
    let mut end: usize = 0;
    // by hand: a turn goes on by as many names as there is room for
    while from < codes.len() {
        let Some(_) = make_room(rt, out, end, out.len()) else {
            return None; // all that follows too
        };
        let names = report::put_names(&codes[from..], out);
        from = from + names.count;
        end = names.end;
    }
    Some(end)
}

// A number in decimal, to standard error.
pub fn say_whole(rt: &HostRuntime, x: u64) {
    let mut digits = [0u8; 20];
    let n = decimal::put_whole(x, &mut digits, 0);
    say(rt, &digits[..n]);
}

// What a refusal means, to the end of the line.
fn say_meaning(rt: &HostRuntime, refusal: u64) {
    match refusal {
        1 => say(rt, b": a name starts with a letter N to S\n"),
        2 => say(
            rt,
            b": a resolution or a depth is 0 to 15, a summary's at most 2, a name has at most 16 bytes\n",
        ),
        3 => say(rt, b": after its letter a name has digits 0 to 8\n"),
        5 => say(rt, b": n and s are 0 to 3\n"),
        6 => say(rt, b": no fix, or a fix or an eccentricity out of range\n"),
        8 => say(rt, b": more cells than there is room for\n"),
        9 => say(rt, b": not a coverage text\n"),
        10 => say(
            rt,
            b": a coverage text of a version that is neither 1 nor 2\n",
        ),
        11 => say(
            rt,
            b": the names do not rise, or one cell lies inside another\n",
        ),
        13 => say(rt, b": the text or the list is too long\n"),
        14 => say(rt, b": the two texts differ in n or s\n"),
        15 => say(
            rt,
            b": the cells do not keep to the profile: N or S in part, or a cell too deep\n",
        ),
        16 => say(
            rt,
            b": the change was made from a revision that is not the newest\n",
        ),
        17 => say(rt, b": there is no revision past 65535\n"),
        18 => say(
            rt,
            b": the revision is not made yet, or it is dropped: the last 32 are kept\n",
        ),
        19 => say(
            rt,
            b": a face's side in metres is 1 to 1073741824, with at most 15 digits\n",
        ),
        _ => say(rt, b"\n"),
    }
}

// The refusal's number and what it means.
pub fn say_refusal(rt: &HostRuntime, refusal: u64) {
    say(rt, b"refusal ");
    say_whole(rt, refusal);
    say_meaning(rt, refusal);
}

// The same of a text: "For 9 the place is ..".
pub fn say_text(rt: &HostRuntime, program: &[u8], refusal: u64, place: u64) {
    say(rt, program);
    say(rt, b": refusal ");
    say_whole(rt, refusal);
    if refusal == 9 {
        say(rt, b" at place ");
        say_whole(rt, place);
    }
    say_meaning(rt, refusal);
}

// What is wrong with a line of the input.
pub fn say_line(rt: &HostRuntime, program: &[u8], line: u64, refusal: u64) {
    say(rt, program);
    say(rt, b": line ");
    say_whole(rt, line);
    say(rt, b": ");
    say_refusal(rt, refusal);
}

// What failed, for a reason that the system gives.
pub fn say_failure(rt: &HostRuntime, program: &[u8], what: &[u8], error: &io::Error) {
    say(rt, program);
    say(rt, b": ");
    say_failed(rt, what, error);
}

// The argument with this number, in front of its room: how long it is. An error where there is none, or no room for it.
pub fn argument(rt: &HostRuntime, i: usize, room: &mut [u8]) -> io::Result<usize>
    ensures { IfOk result (λ n. n ≤ length room.new) }
{
    match rt.arg(i, room) {
        Ok(n) => Ok(n),
        Err(FillError::NotPresent) => Err(io::Error::from_raw_os_error(22)), // EINVAL
        Err(FillError::TooLong) => Err(io::Error::from_raw_os_error(36)), // ENAMETOOLONG
    }
}

// Whether there is an argument with this number.
fn is_argument(rt: &HostRuntime, i: usize) -> bool {
    let mut none = [0u8; 0];
    match rt.arg(i, &mut none) {
        Ok(_) => true,
        Err(FillError::TooLong) => true,
        Err(FillError::NotPresent) => false,
    }
}

// How many words there are, the program's own name among them.
pub fn argument_count(rt: &HostRuntime) -> usize {
    for i in 0..usize::MAX {
        if !is_argument(rt, i) {
            return i;
        }
    }
    usize::MAX
}

// The argument with this number, if it is a whole number.
pub fn whole_argument(rt: &HostRuntime, i: usize) -> Option<u64>
    ensures { OfWord result }
{
    let mut word = [0u8; 20];
    let Ok(n) = argument(rt, i, &mut word) else {
        return decimal::whole_in(&word[..0]);
    };
    decimal::whole_in(&word[..n])
}

// What the second number of a line is, by the number of words, the program's own name among them, and the fourth argument: z, or with a fourth
// argument the sine of a geodetic latitude.
fn latitude_given(count: usize, fourth: Option<u64>) -> Option<Latitude>
    ensures { result ≡ latitude_given count fourth }
{
    if count == 4 {
        return Some(Latitude::Authalic);
    }
    if count != 5 {
        return None;
    }
    match fourth {
        Some(eccentricity) => Some(Latitude::Geodetic(eccentricity)),
        None => None,
    }
}

// The setting that is given, not yet tested.
fn setting_given(
    latitude: Option<Latitude>,
    n: Option<u64>,
    s: Option<u64>,
    resolution: Option<u64>,
) -> Option<Setting>
    ensures { result ≡ setting_given latitude n s resolution }
{
    let latitude = latitude?;
    let north = n?;
    let south = s?;
    let resolution = resolution?;
    Some(Setting {
        arrangement: Arrangement { north, south },
        resolution,
        latitude, // with its eccentricity
    })
}

// Whether the argument with this number is this word.
pub fn argument_is(rt: &HostRuntime, i: usize, word: &[u8]) -> bool {
    let mut room = [0u8; 20];
    let Ok(n) = argument(rt, i, &mut room) else {
        return false;
    };
    check::same(&room[..n], word)
}

// The path of the file beside one, into `room`: the same with `.part` behind it.
pub fn beside(path: &[u8], room: &mut [u8]) -> usize
    requires { length path.now + 5 ≤ length room.old }
    ensures room_after { take result room.new ≡ beside_of path.now }
    ensures upper_bound { result ≤ length room.new }
{
    let at = copying::copy(path, room);
    let more = copying::copy(b".part", &mut room[at..]);
    at + more
}

// Whether the bytes are in the file and on the disk. Where that fails, standard error says why.
fn on_disk(rt: &HostRuntime, program: &[u8], path: &[u8], file: &mut File, bytes: &[u8]) -> bool {
    if let Err(error) = file.write_all(bytes) {
        say_failure(rt, program, path, &error);
        return false;
    }
    if let Err(error) = file.sync_all() {
        say_failure(rt, program, path, &error);
        return false;
    }
    true
}

// A path as text. One that is no UTF-8 names no file here.
fn path_text(path: &[u8]) -> io::Result<&str> {
    match str::from_utf8(path) {
        Ok(text) => Ok(text),
        Err(_) => Err(io::Error::from_raw_os_error(84)), // EILSEQ
    }
}

// Opens a file, or a folder, to read.
pub fn open(rt: &HostRuntime, path: &[u8]) -> io::Result<File> {
    File::open(rt, path_text(path)?)
}

// Opens a file to write it anew.
fn open_anew(rt: &HostRuntime, path: &[u8]) -> io::Result<File> {
    File::create(rt, path_text(path)?)
}

// Makes a file that is not there yet.
pub fn make_new(rt: &HostRuntime, path: &[u8]) -> io::Result<()> {
    let text = path_text(path)?;
    OpenOptions::new()
        .write(true)
        .create_new(true)
        .open(rt, text)?;
    Ok(())
}

fn removed(rt: &HostRuntime, path: &[u8]) -> io::Result<()> {
    fs::remove_file(rt, path_text(path)?)
}

fn renamed(rt: &HostRuntime, from: &[u8], to: &[u8]) -> io::Result<()> {
    fs::rename(rt, path_text(from)?, path_text(to)?)
}

// Removes a file, if it is there.
pub fn remove(rt: &HostRuntime, program: &[u8], path: &[u8]) {
    if let Err(error) = removed(rt, path) {
        if error.kind() != ErrorKind::NotFound {
            say_failure(rt, program, path, &error);
        }
    }
}

// Whether a file has these bytes, and no other, on the disk. It is closed then. Where that fails it is not left behind.
fn written(rt: &HostRuntime, program: &[u8], path: &[u8], bytes: &[u8]) -> bool {
    match open_anew(rt, path) {
        Err(error) => {
            say_failure(rt, program, path, &error);
            return false;
        }
        Ok(mut file) => {
            if on_disk(rt, program, path, &mut file, bytes) {
                return true;
            }
        }
    }
    remove(rt, program, path);
    false
}

// How much of a path is its folder, with the slash: nothing where there is none.
fn folder_length(path: &[u8]) -> usize
    ensures { Folder path.now result }
{
    for before in (0..path.len()).rev() {
        if path[before] == b'/' {
            return before + 1;
        }
    }
    0
}

// Brings a folder to the disk, and with it which file has which name.
fn sync(rt: &HostRuntime, program: &[u8], folder: &[u8]) {
    match open(rt, folder) {
        Err(error) => say_failure(rt, program, folder, &error),
        Ok(file) => {
            if let Err(error) = file.sync_all() {
                say_failure(rt, program, folder, &error);
            }
        }
    }
}

// The same of the folder of a file.
fn sync_folder(rt: &HostRuntime, program: &[u8], path: &[u8]) {
    let n = folder_length(path);
    if n == 0 {
        sync(rt, program, b".");
        return;
    }
    sync(rt, program, &path[..n]);
}

// The file beside another takes its name. Only one that is whole, and on the disk, may.
fn take_place(rt: &HostRuntime, program: &[u8], path: &[u8], beside: &[u8], whole: bool) -> bool
    requires { (whole ≡ true) × (beside.now ≡ beside_of path.now) }
{
    if let Err(error) = renamed(rt, beside, path) {
        say_failure(rt, program, path, &error);
        return false;
    }
    sync_folder(rt, program, path);
    whole
}

// Bytes by way of the file beside, which is not left behind.
fn keep_by(rt: &HostRuntime, program: &[u8], path: &[u8], beside: &[u8], bytes: &[u8]) -> bool
    requires { beside.now ≡ beside_of path.now }
{
    let whole = written(rt, program, beside, bytes);
    if whole {
        if take_place(rt, program, path, beside, whole) {
            return true;
        }
        remove(rt, program, beside);
    }
    false
}

// Puts bytes in a file's place: they go to the file beside it, which takes the name once it is on the disk, so the file is whole at any moment; then the
// folder goes to the disk. Where that fails, standard error says why, the file is as it was, and the one beside it is removed.
pub fn keep(rt: &HostRuntime, program: &[u8], path: &[u8], bytes: &[u8]) -> bool
    requires { length path.now ≤ 4096 }
{
    let mut room = [0u8; 4101];
    let n = beside(path, &mut room);
    keep_by(rt, program, path, &room[..n], bytes)
}

// What comes first of the input. Where it cannot be read, standard error says why.
fn read<R: Read>(
    rt: &HostRuntime,
    program: &[u8],
    what: &[u8],
    from: &mut R,
    buf: &mut [u8],
) -> Option<usize>
    ensures { Fits buf.new result }
{
    match from.read(buf) {
        Ok(count) => Some(count),
        Err(error) => {
            say_failure(rt, program, what, &error);
            None
        }
    }
}

// How many bytes follow, and why reading stopped there: no error where it did not fail.
#[derive(Clone, Copy)]
struct Following {
    count: usize,
    why: io::Error,
}

// What follows of a file, until the room is full. A failure looks like the end.
fn read_on(file: &mut File, buf: &mut [u8]) -> Following
    ensures { result.count ≤ length buf.new }
{
    let mut count: usize = 0;
    // by hand: a turn goes on by as many bytes as were read
    while count < buf.len() {
        match file.read(&mut buf[count..]) {
            Ok(more) => {
                if more == 0 {
                    break;
                }
                count = count + more;
            }
            Err(why) => return Following { count, why },
        }
    }
    Following {
        count,
        why: io::Error::from_raw_os_error(0),
    }
}

// Whether nothing is left of a file, and reading did not fail. Where something is left, standard error says why reading stopped before it.
fn at_end(rt: &HostRuntime, program: &[u8], path: &[u8], file: &mut File, why: &io::Error) -> bool {
    let mut one = [0u8; 1];
    match read(rt, program, path, file, &mut one) {
        None => false,
        Some(0) => true,
        Some(_) => {
            say_failure(rt, program, path, why);
            false
        }
    }
}

// A file to its end, or as much of it as there is room for. Where it cannot be read, standard error says why.
pub fn read_all(
    rt: &HostRuntime,
    program: &[u8],
    path: &[u8],
    file: &mut File,
    buf: &mut [u8],
) -> Option<usize>
    ensures { Fits buf.new result }
{
    let first = read(rt, program, path, file, buf)?;
    let following = read_on(file, &mut buf[first..]);
    let rest = following.count;
    let count = first + rest;
    if count < buf.len() {
        if !at_end(rt, program, path, file, &following.why) {
            return None;
        }
    }
    Some(count)
}

// The same of the file with a path.
pub fn read_file(rt: &HostRuntime, program: &[u8], path: &[u8], buf: &mut [u8]) -> Option<usize>
    ensures { Fits buf.new result }
{
    match open(rt, path) {
        Err(error) => {
            say_failure(rt, program, path, &error);
            return None; // not opened
        }
        Ok(mut file) => {
            let Some(count) = read_all(rt, program, path, &mut file, buf) else {
                return None;
            };
            Some(count) // of the file
        }
    }
}

// The history that the bytes of a file encode. Where they encode none, standard error says so.
fn history_in(rt: &HostRuntime, program: &[u8], path: &[u8], bytes: &[u8]) -> Loaded
    ensures { result ≡ loaded_from bytes.now }
{
    let decoded = encoding::decode(bytes);
    let refusal = decoded.refusal;
    let history = decoded.history;
    if refusal != 0 {
        say(rt, program);
        say(rt, b": ");
        say(rt, path);
        say(rt, b": refusal 9 at place ");
        say_whole(rt, decoded.place);
        say(rt, b": not a history of settings\n");
        return Loaded {
            done: false, // no encoding
            history,
        };
    }
    Loaded {
        done: true,
        history,
    }
}

// The history in a file. Where there is none, standard error says why. A file that is longer than an encoding fills the room, and is refused.
pub fn load_history(rt: &HostRuntime, program: &[u8], path: &[u8]) -> Loaded
    ensures { OfBytes result }
{
    let mut bytes = [0u8; 264];
    let Some(count) = read_file(rt, program, path, &mut bytes) else {
        return Loaded {
            done: false, // no file
            history: history::no_history(),
        };
    };
    history_in(rt, program, path, &bytes[..count])
}

// The revision that is asked for, by the number of words, the program's own name among them: the newest, or with one word more the one that it says.
fn revision_wanted(count: usize, word: Option<u64>, newest: u64) -> Option<u64>
    ensures { result ≡ revision_wanted count word newest }
{
    if count == 3 {
        return Some(newest);
    }
    if count != 4 {
        return None;
    }
    word
}

// The setting of a revision: its lines have the sine of a geodetic latitude. None where the revision is not kept.
fn setting_at(history: History, revision: u64) -> Option<Setting>
    ensures { result ≡ setting_at history revision }
{
    let answer = history::read(history, revision);
    if answer.refusal != 0 {
        return None;
    }
    let settings = answer.settings;
    Some(Setting {
        arrangement: Arrangement {
            north: settings.n, // of the revision
            south: settings.s, // of the revision
        },
        resolution: settings.resolution,
        latitude: Latitude::Geodetic(settings.eccentricity), // held with it
    })
}

// The setting of a history's revision. Standard error says which revision is used, or why there is none.
fn setting_of(
    rt: &HostRuntime,
    program: &[u8],
    path: &[u8],
    history: History,
    wanted: Option<u64>,
) -> Option<Setting>
    ensures { result ≡ setting_wanted history wanted }
{
    let Some(revision) = wanted else {
        return None;
    };
    let given = setting_at(history, revision);
    say(rt, program);
    let Some(setting) = given else {
        say(rt, b": ");
        say_refusal(rt, 18);
        return None;
    };
    say(rt, b": revision ");
    say_whole(rt, revision);
    say(rt, b" of ");
    say(rt, path);
    say(rt, b"\n");
    Some(setting) // of that revision
}

// The setting of a file's history, in the revision that the next argument says, if there is one.
fn setting_in_file(rt: &HostRuntime, program: &[u8], count: usize, path: &[u8]) -> Option<Setting> {
    let loaded = load_history(rt, program, path);
    if !loaded.done {
        return None;
    }
    let history = loaded.history;
    let wanted = revision_wanted(count, whole_argument(rt, 3), history.newest);
    setting_of(rt, program, path, history, wanted)
}

// The arguments `settings`, a file and, if there is one, a revision.
fn kept_setting(rt: &HostRuntime, program: &[u8], count: usize) -> Option<Setting> {
    let mut path = [0u8; 4096];
    match argument(rt, 2, &mut path) {
        Err(error) => {
            say_failure(rt, program, b"FILE", &error);
            None
        }
        Ok(n) => setting_in_file(rt, program, count, &path[..n]),
    }
}

// Whether the words are `settings` and one or two more.
fn is_kept(rt: &HostRuntime, count: usize) -> bool {
    argument_is(rt, 1, b"settings") && (count == 3 || count == 4)
}

// The setting, if it can be used. Where it cannot, standard error says why.
fn usable(rt: &HostRuntime, program: &[u8], given: Option<Setting>) -> Option<Setting>
    ensures { result ≡ judged given }
{
    let setting = given?;
    let number = setting.refusal();
    if number != 0 {
        say(rt, program);
        say(rt, b": ");
        say_refusal(rt, number);
        return None;
    }
    Some(setting) // as it is given
}

// The setting that the first `count` words say, the program's own name among them: n, s, resolution and, where there is a fourth, eccentricity; or
// `settings`, a file and, if there is one, a revision (02 W-209). Where they cannot be used, standard error says why.
pub fn setting_in(rt: &HostRuntime, program: &[u8], count: usize) -> Option<Setting>
    ensures { Usable result }
{
    if is_kept(rt, count) {
        return usable(rt, program, kept_setting(rt, program, count));
    }
    let latitude = latitude_given(count, whole_argument(rt, 4));
    let given = setting_given(
        latitude,
        whole_argument(rt, 1),
        whole_argument(rt, 2),
        whole_argument(rt, 3),
    );
    usable(rt, program, given)
}

// The same of all words.
pub fn given_setting(rt: &HostRuntime, program: &[u8]) -> Option<Setting>
    ensures { Usable result }
{
    setting_in(rt, program, argument_count(rt))
}

// The file that the argument with this number names, as much of it as there is room for. Where it cannot be read, standard error says why.
pub fn load(
    rt: &HostRuntime,
    program: &[u8],
    i: usize,
    path: &mut [u8],
    text: &mut [u8],
) -> Option<usize>
    ensures { Fits text.new result }
{
    match argument(rt, i, path) {
        Err(error) => {
            say_failure(rt, program, b"FILE", &error);
            return None; // no word
        }
        Ok(n) => read_file(rt, program, &path[..n], text),
    }
}

// What comes next of standard input. Where reading fails, standard error says why.
fn read_more(rt: &HostRuntime, program: &[u8], bytes: &mut [u8]) -> Option<usize>
    ensures { Fits bytes.new result }
{
    read(rt, program, b"standard input", &mut rt.stdin(), bytes)
}

// What is left of the input at its end.
fn last_line(kept: usize) -> LineRead
    ensures { result ≡ last_line kept }
{
    if kept == 0 {
        return LineRead::End;
    }
    LineRead::Last { length: kept }
}

// The next line of standard input, as much of it as there is room for. The bytes that were read and are not yet handed on stand from one place up
// to another. A loop has to end, and nothing says that an input does: no line has so many parts.
pub fn next_line(
    rt: &HostRuntime,
    program: &[u8],
    bytes: &mut [u8],
    from: usize,
    end: usize,
    room: &mut [u8],
) -> LineRead
    requires { (from ≤ end) × (end ≤ length bytes.old) × (0 < length room.old) }
    ensures { Given (unread bytes.old from end) bytes.new room.new result }
{
    let mut at = from;
    let mut stop = end;
    let mut kept: usize = 0;
    for _ in 0..u64::MAX {
        match lines::next(&bytes[..stop], at, room, kept) {
            Reached::LineEnd { length, at } => {
                return LineRead::Line {
                    length,
                    from: at,
                    end: stop,
                };
            }
            Reached::PartEnd { kept: more } => kept = more,
        }
        let Some(count) = read_more(rt, program, bytes) else {
            return LineRead::Failed;
        };
        if count == 0 {
            return last_line(kept);
        }
        at = 0;
        stop = count;
    }
    LineRead::Failed
}
