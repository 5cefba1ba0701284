// The place of refusal 9: the scan over letters, brackets and digits.
#![tactic(auto)]

ghost use Rattle.std.specs.Prelude.{◌≡◌, true, ◌+◌, ◌-◌, ◌≤◌, length, drop};
ghost use Rattle.reading.specs.Reading.{first, room};
ghost use Rattle.reading.specs.Scan.{scan, start};
ghost use Rattle.place.specs.Internal.Stack.{here_of, may_open, may_shut, may_stand};

use reading::Level;

// What nodes are, k lists deep.
fn here(level: Level, k: usize) -> Level
    ensures { result ≡ here_of level k }
{
    if k == 0 {
        return level;
    }
    Level::Digits
}

// How many digits may lie below a node of this number, k lists deep.
fn under(level: Level, depth: u64, k: usize, number: u8) -> u64
    requires { k ≤ depth }
    ensures { result ≡ room (here_of level k) number (depth - k) }
{
    reading::room_below(here(level, k), number, depth - k as u64)
}

// Whether a `(` may come, where `named` tells that a letter or digit was just read.
fn may_open(level: Level, depth: u64, k: usize, low: u8, named: bool) -> bool
    requires { (k ≤ depth) × (named ≡ true → 1 ≤ low) }
    ensures { result ≡ may_open level depth k low named }
{
    if !named {
        return false;
    }
    under(level, depth, k, low - 1) != 0
}

// Whether a `)` may come.
fn may_shut(k: usize, low: u8, wholes: u8) -> bool
    ensures { result ≡ may_shut k low wholes }
{
    if k == 0 {
        return false;
    }
    if low == 0 {
        return false;
    }
    wholes != 9
}

// Whether a letter or digit may come, with this byte.
fn may_stand(level: Level, depth: u64, k: usize, low: u8, wholes: u8, byte: u8) -> bool
    requires { (k ≤ depth) × (low ≤ 9) }
    ensures { result ≡ may_stand level depth k low wholes byte }
{
    let kind = here(level, k);
    let base = reading::first_byte(kind);
    if byte < base + low {
        return false;
    }
    if base + reading::how_many(kind) <= byte {
        return false;
    }
    if wholes != 8 {
        return true;
    }
    under(level, depth, k, byte - base) != 0
}

// The number of a letter or digit.
fn number_of(level: Level, k: usize, byte: u8) -> u8
    requires { first (here_of level k) ≤ byte }
    ensures { result ≡ byte - first (here_of level k) }
{
    byte - reading::first_byte(here(level, k))
}

// "The length of the longest leading part that some accepted text begins with", where the body starts at `from`. At each depth of lists `lo` is the
// least number that may come, and `whole` how many nodes stand whole.
pub fn place(text: &[u8], from: usize, level: Level, depth: u64) -> usize
    requires { (from ≤ length text.now) × (depth ≤ 15) }
    ensures { result ≡ from + scan level depth start (drop from text.now) }
{
    let mut lo = [0u8; 16];
    let mut whole = [0u8; 16];
    let mut k: usize = 0;
    let mut named = false;
    for i in from..text.len() {
        let b = text[i];
        if b == b'(' {
            if !may_open(level, depth, k, lo[k], named) {
                return i;
            }
            whole[k] = whole[k] - 1;
            k += 1;
            lo[k] = 0;
            whole[k] = 0;
            named = false;
            continue;
        }
        if b == b')' {
            if !may_shut(k, lo[k], whole[k]) {
                return i;
            }
            k -= 1;
            named = false;
            continue;
        }
        if !may_stand(level, depth, k, lo[k], whole[k], b) {
            return i;
        }
        lo[k] = number_of(level, k, b) + 1;
        whole[k] = whole[k] + 1;
        named = true;
    }
    text.len()
}
