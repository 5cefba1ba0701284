// settings FILE fresh n s resolution eccentricity | change REVISION n s resolution eccentricity | back REVISION WANTED | read REVISION | list: keeps
// the settings of the office, with their last 32 revisions, in a file (02 W-209). A new history is written beside the old one, brought to the disk and
// then put in its place, so that a failure at any moment leaves the one or the other.
#![tactic(auto)]

ghost use Rattle.std.specs.Prelude.{◌≡◌, true, ◌≤◌, length};
ghost use Rattle.encoding.specs.Encoding.{encoding_of};
ghost use Rattle.console.specs.Beside.{beside_of};
ghost use Rattle.report.specs.Put.{Put};
ghost use Rattle.settings.specs.Asked.{settings_given, asked_fresh, asked_change, asked_back, asked_read};
ghost use Rattle.settings.specs.Answered.{answered, changed_from, read_line};

use console::Loaded;
use history::{History, HistoryAnswer, Settings};
use std::io::ErrorKind;

// A change of a history, with the revision that it was made from; a fresh one has none.
#[derive(Clone, Copy)]
enum Change {
    Fresh(Settings),
    To { from: u64, settings: Settings },
    Back { from: u64, wanted: u64 },
}

// What is asked for.
#[derive(Clone, Copy)]
enum Asked {
    Changed(Change),
    Read(u64),
    List,
    Wrong,
}

fn usage(rt: &HostRuntime) {
    console::say(
        rt,
        b"usage: settings FILE fresh n s resolution eccentricity\n",
    );
    console::say(
        rt,
        b"       settings FILE change REVISION n s resolution eccentricity\n",
    );
    console::say(rt, b"       settings FILE back REVISION WANTED\n");
    console::say(rt, b"       settings FILE read REVISION\n");
    console::say(rt, b"       settings FILE list\n");
    console::say(
        rt,
        b"  n and s are 0 to 3, the resolution is 0 to 15, the squared eccentricity 0 to 10000000000 in units of 10^-12;\n",
    );
    console::say(
        rt,
        b"  REVISION is the newest, from which a change is made; WANTED is one of the last 32\n",
    );
}

// The settings that four words say.
fn settings_given(
    n: Option<u64>,
    s: Option<u64>,
    resolution: Option<u64>,
    eccentricity: Option<u64>,
) -> Option<Settings>
    ensures { result ≡ settings_given n s resolution eccentricity }
{
    let n = n?;
    let s = s?;
    let resolution = resolution?;
    let eccentricity = eccentricity?;
    Some(Settings {
        n, // as given
        s,
        resolution,
        eccentricity, // as given
    })
}

fn asked_fresh(given: Option<Settings>) -> Asked
    ensures { result ≡ asked_fresh given }
{
    match given {
        Some(settings) => Asked::Changed(Change::Fresh(settings)),
        None => Asked::Wrong, // nothing fresh
    }
}

fn asked_change(from: Option<u64>, given: Option<Settings>) -> Asked
    ensures { result ≡ asked_change from given }
{
    let Some(from) = from else {
        return Asked::Wrong;
    };
    match given {
        Some(settings) => Asked::Changed(Change::To { from, settings }),
        None => Asked::Wrong, // nothing new
    }
}

fn asked_back(from: Option<u64>, wanted: Option<u64>) -> Asked
    ensures { result ≡ asked_back from wanted }
{
    let Some(from) = from else {
        return Asked::Wrong;
    };
    match wanted {
        Some(wanted) => Asked::Changed(Change::Back { from, wanted }),
        None => Asked::Wrong,
    }
}

fn asked_read(revision: Option<u64>) -> Asked
    ensures { result ≡ asked_read revision }
{
    match revision {
        Some(revision) => Asked::Read(revision),
        None => Asked::Wrong,
    }
}

// The settings that the words from this number on say.
fn settings_from(rt: &HostRuntime, i: usize) -> Option<Settings>
    requires { i ≤ 8 }
{
    settings_given(
        console::whole_argument(rt, i),
        console::whole_argument(rt, i + 1),
        console::whole_argument(rt, i + 2),
        console::whole_argument(rt, i + 3),
    )
}

// What the second word asks for, with as many words as it takes.
fn asked_for(rt: &HostRuntime, word: &[u8], words: usize) -> Asked {
    if check::same(word, b"fresh") && words == 7 {
        return asked_fresh(settings_from(rt, 3));
    }
    if check::same(word, b"change") && words == 8 {
        return asked_change(console::whole_argument(rt, 3), settings_from(rt, 4));
    }
    if check::same(word, b"back") && words == 5 {
        return asked_back(
            console::whole_argument(rt, 3),
            console::whole_argument(rt, 4),
        );
    }
    if check::same(word, b"read") && words == 4 {
        return asked_read(console::whole_argument(rt, 3));
    }
    if check::same(word, b"list") && words == 3 {
        return Asked::List;
    }
    Asked::Wrong
}

// What is answered to a change of a history.
fn answer(history: History, change: Change) -> HistoryAnswer
    ensures { result ≡ answered history change }
{
    match change {
        Change::Fresh(settings) => history::fresh(settings),
        Change::To { from, settings } => history::change(history, from, settings),
        Change::Back { from, wanted } => history::back(history, from, wanted),
    }
}

// The history after a change, if there was one before it and the change is not refused. A refusal is said.
fn changed(rt: &HostRuntime, loaded: Loaded, change: Change) -> Loaded
    ensures { result ≡ changed_from loaded change }
{
    if !loaded.done {
        return loaded;
    }
    let answer = answer(loaded.history, change);
    let refusal = answer.refusal;
    let history = answer.history;
    if refusal != 0 {
        console::say(rt, b"settings: ");
        console::say_refusal(rt, refusal);
        return Loaded {
            done: false, // refused
            history,
        };
    }
    Loaded {
        done: true, // accepted
        history,
    }
}

// Before a fresh history there is no file: one that is there stays.
fn no_file(rt: &HostRuntime, path: &[u8]) -> Loaded {
    match console::open(rt, path) {
        Ok(_) => {
            console::say(rt, b"settings: ");
            console::say(rt, path);
            console::say(
                rt,
                b": it is there already, and a fresh history would destroy it\n",
            );
            Loaded {
                done: false,
                history: history::no_history(),
            }
        }
        Err(error) => {
            let none = error.kind() == ErrorKind::NotFound;
            if !none {
                console::say_failure(rt, b"settings", path, &error);
            }
            Loaded {
                done: none,
                history: history::no_history(),
            }
        }
    }
}

// The history before a change.
fn before(rt: &HostRuntime, path: &[u8], change: Change) -> Loaded {
    match change {
        Change::Fresh(_) => no_file(rt, path),
        _ => console::load_history(rt, b"settings", path),
    }
}

// Makes the file beside the old one, in which the new history will be written. It stands from before the old one is read until it takes its place, so no
// two changes are made at once; and where it is found, another is being made, or one was cut off.
fn claimed(rt: &HostRuntime, beside: &[u8]) -> bool {
    if let Err(error) = console::make_new(rt, beside) {
        console::say_failure(rt, b"settings", beside, &error);
        if error.kind() == ErrorKind::AlreadyExists {
            console::say(
                rt,
                b"settings: another change is being made, or one was cut off; if none is being made, remove that file\n",
            );
        }
        return false;
    }
    true
}

// The history after a change and, where there is one, its bytes.
fn changed_bytes(rt: &HostRuntime, loaded: Loaded, change: Change, bytes: &mut [u8]) -> Loaded
    requires { 263 ≡ length bytes.old }
    ensures value { result ≡ changed_from loaded change }
    ensures bytes_after { result.done ≡ true → bytes.new ≡ encoding_of result.history }
{
    let after = changed(rt, loaded, change);
    if !after.done {
        return after; // nothing is encoded
    }
    encoding::encode(after.history, bytes);
    after
}

// Puts a history's bytes in the file's place: to standard output its newest revision, which the change made.
fn put_in_place(rt: &HostRuntime, path: &[u8], history: History, bytes: &[u8])
    requires { (length path.now ≤ 4096) × (bytes.now ≡ encoding_of history) }
{
    if !console::keep(rt, b"settings", path, bytes) {
        return;
    }
    let mut out = [0u8; 21];
    let end = report::put_line(history.newest, &mut out);
    console::print_first(rt, &out, end);
}

// A change of the history in a file, by way of the file beside it.
fn change_file(rt: &HostRuntime, path: &[u8], beside: &[u8], change: Change)
    requires { (length path.now ≤ 4096) × (beside.now ≡ beside_of path.now) }
{
    if !claimed(rt, beside) {
        return;
    }
    let mut bytes = [0u8; 263];
    let after = changed_bytes(rt, before(rt, path, change), change, &mut bytes);
    if !after.done {
        console::remove(rt, b"settings", beside);
        return;
    }
    put_in_place(rt, path, after.history, &bytes);
}

fn make_change(rt: &HostRuntime, path: &[u8], change: Change)
    requires { length path.now ≤ 4096 }
{
    let mut room = [0u8; 4101];
    let end = console::beside(path, &mut room);
    change_file(rt, path, &room[..end], change);
}

// Puts the settings of a revision in front, or nothing where it is not kept: where they end.
fn put_read(history: History, revision: u64, out: &mut [u8]) -> usize
    requires { 84 ≤ length out.old }
    ensures put { Put 0 (read_line history revision) out.old out.new result }
    ensures upper_bound { result ≤ 84 }
{
    let answer = history::read(history, revision);
    if answer.refusal != 0 {
        return 0;
    }
    report::put_settings(answer.settings, out, 0)
}

fn show_read(rt: &HostRuntime, path: &[u8], revision: u64) {
    let loaded = console::load_history(rt, b"settings", path);
    if !loaded.done {
        return;
    }
    let mut out = [0u8; 84];
    let end = put_read(loaded.history, revision, &mut out);
    console::print_first(rt, &out, end);
    if end == 0 {
        console::say(rt, b"settings: ");
        console::say_refusal(rt, 18);
    }
}

fn show_list(rt: &HostRuntime, path: &[u8]) {
    let loaded = console::load_history(rt, b"settings", path);
    if !loaded.done {
        return;
    }
    let mut out = [0u8; 3360];
    let end = report::put_history(loaded.history, &mut out);
    console::print_first(rt, &out, end);
}

fn answer_to(rt: &HostRuntime, path: &[u8], asked: Asked)
    requires { length path.now ≤ 4096 }
{
    match asked {
        Asked::Changed(change) => make_change(rt, path, change),
        Asked::Read(revision) => show_read(rt, path, revision),
        Asked::List => show_list(rt, path),
        Asked::Wrong => usage(rt),
    }
}

fn main(rt: HostRuntime) {
    let rt = &rt;
    let count = console::argument_count(rt);
    let mut word = [0u8; 8];
    let asked = match console::argument(rt, 2, &mut word) {
        Ok(m) => asked_for(rt, &word[..m], count),
        Err(_) => Asked::Wrong, // none, or too long
    };
    let mut path = [0u8; 4096];
    match console::argument(rt, 1, &mut path) {
        Ok(n) => answer_to(rt, &path[..n], asked),
        Err(error) => {
            if count < 2 {
                usage(rt);
                return;
            }
            console::say_failure(rt, b"settings", b"FILE", &error);
        }
    }
}
