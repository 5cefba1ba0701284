// Checking a coverage text: node reader and list reader call each other.
#![tactic(auto)]

ghost use Rattle.std.specs.Prelude.{◌≡◌, ◌*◌, ◌^◌, ◌≤◌, ◌<◌, eqb, length, get_or, Err};
ghost use Rattle.reading.specs.Text.{heading_length};
ghost use Rattle.reading.specs.Heading.{least, greatest, lead, profile_in};
ghost use Rattle.reader.specs.Check.{checked_of};
ghost use Rattle.reader.specs.Internal.NodesRead.{ReadsNode, ReadsNodes};

use cell::Arrangement;
use reading::{Level, Profile, Refused};

// What a text says: its heading, how many whole cells it has, the sum of their sizes, and where its body starts.
#[derive(Clone, Copy)]
pub struct Checked {
    pub profile: Profile,
    pub arrangement: Arrangement,
    pub cells: u64,
    pub size: u64,
    pub body: usize,
}

// What reading nodes hands back: the place of the next byte, the number of whole cells, the sum of their sizes, and how many of the nodes stand whole.
#[derive(Clone, Copy)]
pub struct NodesRead {
    pub next: usize,
    pub cells: u64,
    pub sum: u64,
    pub wholes: u64,
}

// The node reader, at the `(` behind a node's letter or digit: the list that the node holds. The node's own size is `size`, and `room` digits may lie
// below it.
#[cycle(node_nodes)]
fn node(text: &[u8], at: usize, room: u64, size: u64) -> Option<NodesRead>
    requires { (at < length text.now) × (get_or text.now at 0 ≡ 40) }
    ensures { ReadsNode text.now at room size result }
{
    if room == 0 {
        return None;
    }
    let start = at + 1;
    let list = nodes(text, start, Level::Digits, room - 1, size / 9)?;
    let next = list.next;
    if next == start {
        return None;
    }
    if next == text.len() {
        return None;
    }
    let wholes = list.wholes;
    if wholes == 9 {
        return None;
    }
    Some(NodesRead {
        next: next + 1,
        cells: list.cells,
        sum: list.sum,
        wholes: 0,
    })
}

// The list reader: nodes whose numbers rise, up to a `)` or the end. A node is whole where no `(` follows.
#[cycle(node_nodes)]
fn nodes(text: &[u8], start: usize, level: Level, room: u64, size: u64) -> Option<NodesRead>
    requires { (start ≤ length text.now) × (9 * size < 2 ^ 64) }
    ensures { ReadsNodes text.now start 0 level room size result }
{
    let length = text.len();
    let base = reading::first_byte(level);
    let above = base + reading::how_many(level);
    let mut at = start;
    let mut low = base;
    let mut cells: u64 = 0;
    let mut sum: u64 = 0;
    let mut wholes: u64 = 0;
    while at < length {
        let b = text[at];
        if b == b')' {
            break;
        }
        if b < low {
            return None;
        }
        if above <= b {
            return None;
        }
        low = b + 1;
        at += 1;
        if !reading::opens_at(text, at) {
            wholes += 1;
            continue;
        }
        let under = reading::room_below(level, b - base, room);
        let held = node(text, at, under, size)?;
        at = held.next;
        cells += held.cells;
        sum += held.sum;
    }
    Some(NodesRead {
        next: at,
        cells: cells + wholes,
        sum: sum + wholes * size,
        wholes,
    })
}

// The least and the greatest byte at each place of the heading.
const LEAST: [u8; 8] = [b'C', b'V', b'R', 0, 1, b'0', b'0', b'a'];

const GREATEST: [u8; 8] = [b'C', b'V', b'R', 0, 2, b'3', b'3', b'p'];

// How many leading bytes are as in a heading.
fn heading(text: &[u8]) -> usize
    ensures { result ≡ lead least greatest text.now }
{
    reading::lead_in(text, &LEAST, &GREATEST)
}

// The byte at a place, or 0 where there is none.
fn byte_at(text: &[u8], at: usize) -> u8
    ensures { result ≡ get_or text.now at 0 }
{
    if at >= text.len() {
        return 0;
    }
    text[at]
}

// The profile that the version and the letter behind s tell.
fn profile_in(text: &[u8]) -> Profile
    ensures { result ≡ profile_in text.now }
{
    if byte_at(text, 4) == 1 {
        return Profile::Full;
    }
    let letter = byte_at(text, 7);
    if letter < b'a' {
        return Profile::Handheld(0);
    }
    Profile::Handheld((letter - b'a') as u64)
}

fn refused(refusal: u64, place: u64) -> Result<Checked, Refused>
    ensures { result ≡ Err (record { refusal = refusal; place = place }) }
{
    Err(Refused { refusal, place })
}

// The answer where only `right` bytes of the heading are right: 10 "five bytes or more, mark right", version "neither 1 nor 2", else 9.
fn check_heading(text: &[u8], right: usize) -> Result<Checked, Refused>
    requires { (length text.now ≤ 65536) × (right ≡ lead least greatest text.now) × (right < heading_length (profile_in text.now)) }
    ensures { result ≡ checked_of text.now }
{
    if text.len() < 5 {
        return refused(9, right as u64);
    }
    if right < 3 {
        return refused(9, right as u64);
    }
    if right < 5 {
        return refused(10, 0);
    }
    refused(9, right as u64)
}

// The answer where the heading is right.
fn check_body(text: &[u8], profile: Profile) -> Result<Checked, Refused>
    requires { (length text.now ≤ 65536) × (profile ≡ profile_in text.now) × (heading_length (profile_in text.now) ≤ lead least greatest text.now) }
    ensures { result ≡ checked_of text.now }
{
    let level = reading::level_of(profile);
    let depth = reading::depth_of(profile);
    let body = reading::heading_length(profile);
    let Some(read) = nodes(text, body, level, depth, code::FACE_SIZE) else {
        return refused(9, place::place(text, body, level, depth) as u64);
    };
    let next = read.next;
    if next < text.len() {
        return refused(9, place::place(text, body, level, depth) as u64);
    }
    let north = (text[5] - b'0') as u64;
    let south = (text[6] - b'0') as u64;
    Ok(Checked {
        profile,
        arrangement: Arrangement { north, south },
        cells: read.cells,
        size: read.sum,
        body,
    })
}

// Checking: the reader of coverage texts.
pub fn check(text: &[u8]) -> Result<Checked, Refused>
    ensures { result ≡ checked_of text.now }
{
    if text.len() > reading::LONGEST {
        return refused(13, 0);
    }
    let right = heading(text);
    let profile = profile_in(text);
    if right < reading::heading_length(profile) {
        return check_heading(text, right);
    }
    check_body(text, profile)
}
