// The looser text of a hand-edited body: whether bytes are one, and the place where they are not.
#![tactic(auto)]

ghost use Rattle.std.specs.Prelude.{◌≡◌, false, ◌+◌, ◌≤◌, ◌<◌, length, drop, Err};
ghost use Rattle.loose.specs.LooseScan.{lead_one, is_name, scan, depth};
ghost use Rattle.loose.specs.Look.{loose_refusal, looked};

use cell::Arrangement;
use reading::Refused;

// The place where the scan of a body stops, and how many lists are open there.
#[derive(Clone, Copy)]
struct Stop {
    place: usize,
    lists: u64,
}

// Whether a byte is a letter, outside of all lists, or a digit, inside.
fn is_name(lists: u64, b: u8) -> bool
    ensures { result ≡ is_name lists b }
{
    if lists == 0 {
        if b < b'N' {
            return false;
        }
        return b < b'T';
    }
    if b < b'0' {
        return false;
    }
    b < b'9'
}

// The scan over letters, digits and brackets, from `from` on.
fn stop_of(text: &[u8], from: usize) -> Stop
    requires { from ≤ length text.now }
    ensures { (result.place ≡ from + scan 0 false (drop from text.now)) × (result.lists ≡ depth 0 false (drop from text.now)) }
{
    let mut lists: u64 = 0;
    let mut named = false;
    for i in from..text.len() {
        let b = text[i];
        if b == b'(' {
            if !named {
                return Stop { place: i, lists };
            }
            if lists >= 15 {
                return Stop { place: i, lists };
            }
            lists = lists + 1;
            named = false;
            continue;
        }
        if b == b')' {
            if lists == 0 {
                return Stop { place: i, lists };
            }
            lists = lists - 1;
            named = false;
            continue;
        }
        if !is_name(lists, b) {
            return Stop { place: i, lists };
        }
        named = true;
    }
    Stop {
        place: text.len(),
        lists,
    }
}

// The least and the greatest byte at each place of the heading of version 1.
const LEAST: [u8; 7] = [b'C', b'V', b'R', 0, 1, b'0', b'0'];

const GREATEST: [u8; 7] = [b'C', b'V', b'R', 0, 1, b'3', b'3'];

// How many leading bytes are as in such a heading.
fn heading(text: &[u8]) -> usize
    ensures { result ≡ lead_one text.now }
{
    reading::lead_in(text, &LEAST, &GREATEST)
}

fn refused(refusal: u64, place: u64) -> Result<Arrangement, Refused>
    ensures { result ≡ Err (record { refusal = refusal; place = place }) }
{
    Err(Refused { refusal, place })
}

// The answer where only `right` bytes of the heading are right: 10 "five bytes or more, mark right, version not 1", else 9.
fn look_heading(text: &[u8], right: usize) -> Result<Arrangement, Refused>
    requires { (length text.now ≤ 65536) × (right ≡ lead_one text.now) × (right < 7) }
    ensures { result ≡ looked (loose_refusal text.now) text.now }
{
    if text.len() < 5 {
        return refused(9, right as u64);
    }
    if right < 3 {
        return refused(9, right as u64);
    }
    if right < 5 {
        return refused(10, 0);
    }
    refused(9, right as u64)
}

// The answer where the heading is right.
fn look_body(text: &[u8]) -> Result<Arrangement, Refused>
    requires { (length text.now ≤ 65536) × (7 ≤ lead_one text.now) }
    ensures { result ≡ looked (loose_refusal text.now) text.now }
{
    let stop = stop_of(text, 7);
    let place = stop.place;
    let lists = stop.lists;
    if place < text.len() {
        return refused(9, place as u64);
    }
    if lists != 0 {
        return refused(9, place as u64);
    }
    let north = (text[5] - b'0') as u64;
    let south = (text[6] - b'0') as u64;
    Ok(Arrangement { north, south })
}

// Whether bytes are a looser text: 13, 10 or 9 where they are not.
pub fn look(text: &[u8]) -> Result<Arrangement, Refused>
    ensures { result ≡ looked (loose_refusal text.now) text.now }
{
    if text.len() > reading::LONGEST {
        return refused(13, 0);
    }
    let right = heading(text);
    if right < 7 {
        return look_heading(text, right);
    }
    look_body(text)
}
