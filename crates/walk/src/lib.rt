// The walk over the body of a text that was accepted: the cell that each letter and digit stands for.
#![tactic(auto)]

ghost use Rattle.std.specs.Prelude.{◌≡◌, true, ◌+◌, ◌^◌, ◌≤◌, ◌<◌, length, drop};
ghost use Rattle.walk.specs.Walk.{Fits, number_in, after, goes_on, whole_at};
ghost use Rattle.walk.specs.Past.{open_past, shut_in, node_in};

// Where the walk stands: a cell, by its resolution and by its face and digits read in base nine; and the number of the first of the cells beside it.
#[derive(Clone, Copy)]
pub struct Spot {
    pub resolution: u64,
    pub number: u64,
    pub first: u64,
}

// The number of a letter or digit.
pub fn number_in(b: u8) -> u64
    ensures { result ≡ number_in b }
{
    if b >= b'N' {
        return (b - b'N') as u64;
    }
    if b >= b'0' {
        return (b - b'0') as u64;
    }
    0
}

impl Spot {
    // `(` leads to the cell's first child, `)` to its parent, and a letter or digit to the cell of that number beside it.
    pub fn after(self, b: u8) -> Spot
        requires { Fits self × (goes_on self b ≡ true) }
        ensures { result ≡ after self b }
    {
        let resolution = self.resolution;
        let number = self.number;
        let first = self.first;
        if b == b'(' {
            let child = number * 9;
            return Spot {
                resolution: resolution + 1,
                number: child,
                first: child,
            };
        }
        if b == b')' {
            let parent = number / 9;
            return Spot {
                resolution: resolution - 1,
                number: parent,
                first: parent / 9 * 9,
            };
        }
        Spot {
            resolution,
            number: first + number_in(b),
            first,
        }
    }
}

// Whether the byte at `i` is the letter or digit of a whole cell: no `(` follows it.
pub fn whole_at(text: &[u8], i: usize) -> bool
    requires { i < length text.now }
    ensures { result ≡ whole_at (drop i text.now) }
{
    let b = text[i];
    if b == b'(' {
        return false;
    }
    if b == b')' {
        return false;
    }
    let next = i + 1;
    if next == text.len() {
        return true;
    }
    text[next] != b'('
}

// How many lists are open behind a byte.
fn open_past(depth: u64, b: u8) -> u64
    requires { (0 < depth) × (depth ≤ 2 ^ 63) }
    ensures { result ≡ open_past depth b }
{
    if b == b'(' {
        return depth + 1;
    }
    if b == b')' {
        return depth - 1;
    }
    depth
}

// The place behind the list whose nodes stand from `at` on.
fn past_list(text: &[u8], at: usize) -> usize
    ensures { result ≡ at + shut_in 1 (drop at text.now) }
{
    let mut depth: u64 = 1;
    for i in at..text.len() {
        depth = open_past(depth, text[i]);
        if depth == 0 {
            return i + 1;
        }
    }
    text.len().max(at)
}

// The place behind the node whose letter or digit stands at `i`.
pub fn past_node(text: &[u8], i: usize) -> usize
    requires { i < length text.now }
    ensures { result ≡ i + node_in (drop i text.now) }
{
    if whole_at(text, i) {
        return i + 1; // no list follows
    }
    past_list(text, i + 2)
}
