// The accepted text of a list of cells.
#![tactic(auto)]

ghost use Rattle.std.specs.Prelude.{◌≡◌, true, not, map, ◌+◌, ◌-◌, ◌*◌, ◌^◌, ◌≤◌, ◌<◌, length, set};
ghost use Rattle.std.proofs.lemmas.List.Edits.{sets};
ghost use Rattle.writing.specs.Internal.Measure.{cell_start, StartAtPlace, NodeMeasured, ListMeasured};
ghost use Rattle.writing.specs.Internal.Whole.{WholeUntil};
ghost use Rattle.writing.specs.Internal.Put.{NodePut, ListPut, front};
ghost use Rattle.logic.specs.Refusal.{refuse, ◌otherwise◌, given};
ghost use Rattle.cell.specs.Cell.{IsArrangement};
ghost use Rattle.code.specs.Code.{cell_of};
ghost use Rattle.reading.specs.Text.{IsProfile, version_of, heading};
ghost use Rattle.writing.specs.Write.{all_codes, InTurn, codes_refusal, asks_for, is_version, text_of, fit_refusal, write_refusal, text_in, written};
ghost use Rattle.writing.specs.Internal.Depth.{greater as greater_of, depth_above, breaks as breaks_it};
ghost use Rattle.writing.specs.Internal.Length.{LengthIs};
ghost use Rattle.writing.specs.Internal.Asked.{asked_refusal};

use cell::Arrangement;
use reading::Profile;

// What was measured: the place of the next code, the bytes that the nodes make, how many of them are whole, and the least depth of version 2 that they keep to.
#[derive(Clone, Copy)]
struct Measure {
    next: usize,
    bytes: u64,
    wholes: u64,
    depth: u64,
}

// The first finest cell of the code at a place, or a number above all of them where there is no such place.
fn start_at(codes: &[u64], at: usize) -> u64
    requires { all_codes codes.now ≡ true }
    ensures { StartAtPlace codes.now at result }
{
    if at < codes.len() {
        return code::start_in(codes[at]);
    }
    0x1000_0000_0000_0000
}

fn greater(a: u64, b: u64) -> u64
    ensures { result ≡ greater_of a b }
{
    if a < b {
        return b;
    }
    a
}

// The least depth that the node of a cell keeps to where it holds a list that keeps to `below`: 16, more than any, for N and S, which stand only whole.
fn depth_above(start: u64, size: u64, below: u64) -> u64
    requires { below < 2 ^ 63 }
    ensures { result ≡ depth_above start size below }
{
    if size != code::FACE_SIZE {
        return below + 1;
    }
    if start == 0 {
        return 16; // N
    }
    if start == 5 * code::FACE_SIZE {
        return 16; // S
    }
    below + 1
}

// Where the cell of this size begins that has a finest cell inside, cells being counted from `base` on.
fn cell_start(base: u64, size: u64, finest: u64) -> u64
    requires { 0 < size }
    ensures { result ≡ cell_start base size finest }
{
    if finest < base {
        return base;
    }
    finest - (finest - base) % size
}

// The node of a cell of this size, one of those from `base` on, that has the code at hand inside: a code of the same size is the cell's, wherever it begins.
#[cycle(measure_list_measure_node)]
fn measure_node(codes: &[u64], at: usize, base: u64, size: u64) -> Measure
    requires { (all_codes codes.now ≡ true) × (at < length codes.now) × (0 < size) × (base ≤ 9 ^ 16) × (size ≤ 9 ^ 16) }
    ensures { NodeMeasured codes.now at base size result }
{
    let code = codes[at];
    if code::size_in(code) == size {
        return Measure {
            next: at + 1,
            bytes: 1,
            wholes: 1,
            depth: 0,
        };
    }
    if size < 9 {
        return Measure {
            next: at + 1,
            bytes: 1,
            wholes: 1,
            depth: 0,
        };
    }
    let start = cell_start(base, size, code::start_in(code));
    let list = measure_list(codes, at, 9, start, size / 9);
    if list.wholes == 9 {
        return Measure {
            next: list.next,
            bytes: 1,
            wholes: 1,
            depth: 0, // whatever its codes are
        };
    }
    Measure {
        next: list.next,
        bytes: 3 + list.bytes,
        wholes: 0,
        depth: depth_above(start, size, list.depth),
    }
}

// The nodes of so many cells of a list, of which the first one begins at `start`. It goes from code to code, and over cells that have none at once; so it
// ends where no code is left for the list, or where it has taken a node for each cell.
#[cycle(measure_list_measure_node)]
fn measure_list(codes: &[u64], at: usize, left: u64, start: u64, size: u64) -> Measure
    requires { (all_codes codes.now ≡ true) × (at ≤ length codes.now) × (left ≤ 9) × (0 < size) × (start ≤ 9 ^ 16) × (left * size ≤ 9 ^ 16) }
    ensures { ListMeasured codes.now at left start size result }
{
    let limit = start + left * size;
    let mut next = at;
    let mut first = start_at(codes, at);
    let mut bytes: u64 = 0;
    let mut wholes: u64 = 0;
    let mut depth: u64 = 0;
    for _ in 0..left {
        if limit <= first {
            return Measure {
                next,
                bytes,
                wholes,
                depth, // no code is left for the other cells
            };
        }
        let node = measure_node(codes, next, start, size);
        next = node.next;
        bytes = bytes + node.bytes;
        wholes = wholes + node.wholes;
        depth = greater(depth, node.depth);
        first = start_at(codes, next);
    }
    Measure {
        next,
        bytes,
        wholes,
        depth,
    }
}

// The place of the next code after a whole node, or the same place where the node is not whole. It is whole where the codes from here on
// cover its finest cells with no gap.
fn whole_until(codes: &[u64], at: usize, start: u64, size: u64) -> usize
    requires { (all_codes codes.now ≡ true) × (at < length codes.now) × (0 < size) × (start + size ≤ 9 ^ 16) }
    ensures { WholeUntil codes.now at start size result }
{
    if size < 9 {
        return at + 1;
    }
    if code::size_in(codes[at]) == size {
        return at + 1;
    }
    let end = start + size;
    let mut position = start;
    for i in at..codes.len() {
        let code = codes[i];
        if position < code::start_in(code) {
            return at;
        }
        position = position + code::size_in(code);
        if end <= position {
            return i + 1;
        }
    }
    at
}

// A byte at a place of the text, if there is such a place.
fn put(text: &mut [u8], place: usize, byte: u8)
    ensures { text.new ≡ set text.old place byte }
{
    if place < text.len() {
        text[place] = byte;
    }
}

// Where writing ends: the place of the next code, and the place of the next byte.
#[derive(Clone, Copy)]
struct WrittenTo {
    next: usize,
    place: usize,
}

// Writes the node of a cell that has the code at hand inside: its letter or digit, and its list where it is not whole.
#[cycle(put_list_put_node)]
fn put_node(
    codes: &[u64],
    at: usize,
    start: u64,
    size: u64,
    text: &mut [u8],
    place: usize,
    byte: u8,
) -> WrittenTo
    requires { (all_codes codes.now ≡ true) × (at < length codes.now) × (0 < size) × (start + size ≤ 9 ^ 16) × (place + (2 * size - 1) ≤ 2 ^ 63) }
    ensures { NodePut codes.now at start size place byte text.old text.new result }
{
    put(text, place, byte);
    let next = whole_until(codes, at, start, size);
    if next != at {
        return WrittenTo {
            next,
            place: place + 1,
        };
    }
    put(text, place + 1, b'(');
    let list = put_list(codes, at, 9, start, size / 9, text, place + 2, b'0');
    put(text, list.place, b')');
    WrittenTo {
        next: list.next,
        place: list.place + 1,
    }
}

// Writes the nodes of the cells that are left of a list, of which the first one starts at `start`.
#[cycle(put_list_put_node)]
fn put_list(
    codes: &[u64],
    at: usize,
    left: u64,
    start: u64,
    size: u64,
    text: &mut [u8],
    place: usize,
    byte: u8,
) -> WrittenTo
    requires { (all_codes codes.now ≡ true) × (at ≤ length codes.now) × (left ≤ 9) × (0 < size) × (start + left * size ≤ 9 ^ 16) × (place + left * (2 * size - 1) ≤ 2 ^ 63) × (byte + left ≤ 255) }
    ensures { ListPut codes.now at left start size place byte text.old text.new result }
{
    let mut next = at;
    let mut first = start_at(codes, at);
    let mut child = start;
    let mut ends = place;
    let mut name = byte;
    for _ in 0..left {
        let end = child + size;
        if first < end {
            let node = put_node(codes, next, child, size, text, ends, name);
            next = node.next;
            ends = node.place;
            first = start_at(codes, next);
        }
        child = end;
        name = name + 1;
    }
    WrittenTo { next, place: ends }
}

// What is said of the codes so far, with one more: 14 where it is of another arrangement, which 11 does not undo; 11 where it does not follow.
fn judged(refusal: u64, own: bool, follows: bool) -> u64
    ensures { result ≡ refuse (not own) 14 otherwise refusal otherwise refuse (not follows) 11 }
{
    if !own {
        return 14; // of another arrangement
    }
    if refusal != 0 {
        return refusal;
    }
    if follows {
        return 0;
    }
    11 // not rising, or nested
}

// 4, 14 or 11, or 0 where the codes make a good list: a code that is no cell's comes before all else. A cell that starts where the one before it
// ends, or later, comes after it and not inside.
fn list_refusal(arrangement: Arrangement, codes: &[u64]) -> u64
    requires { IsArrangement arrangement }
    ensures { result ≡ codes_refusal arrangement codes.now }
{
    let mut refusal: u64 = 0;
    let mut end: u64 = 0;
    for &code in codes {
        if !code::is_code(code) {
            return 4;
        }
        let own = code::is_of(arrangement, code);
        let start = code::start_in(code);
        refusal = judged(refusal, own, end <= start);
        end = start + code::size_in(code);
    }
    refusal
}

// The length of the text of a list, and the least depth of version 2 that its nodes keep to.
#[derive(Clone, Copy)]
struct Extent {
    length: u64,
    depth: u64,
}

// The text of a good list, measured.
fn length_of(profile: Profile, codes: &[u64]) -> Extent
    requires { (all_codes codes.now ≡ true) × InTurn (map cell_of codes.now) }
    ensures { LengthIs profile codes.now result }
{
    let faces = measure_list(codes, 0, 6, 0, code::FACE_SIZE);
    Extent {
        length: faces.bytes + reading::heading_length(profile) as u64,
        depth: faces.depth,
    }
}

// Whether nodes that keep to this depth and to no lesser one are outside the profile.
fn breaks(profile: Profile, depth: u64) -> bool
    ensures { result ≡ breaks_it profile depth }
{
    match profile {
        Profile::Full => false,
        Profile::Handheld(most) => most < depth,
    }
}

fn version_of(profile: Profile) -> u8
    ensures { result ≡ version_of profile }
{
    match profile {
        Profile::Full => 1,
        Profile::Handheld(_) => 2,
    }
}

// The seven bytes of heading that both versions have.
fn put_front(text: &mut [u8], version: u8, north: u64, south: u64)
    requires { (north ≤ 3) × (south ≤ 3) }
    ensures { text.new ≡ sets text.old 0 (front version north south) }
{
    put(text, 0, b'C');
    put(text, 1, b'V');
    put(text, 2, b'R');
    put(text, 3, 0);
    put(text, 4, version);
    put(text, 5, b'0' + north as u8);
    put(text, 6, b'0' + south as u8);
}

// The bytes of heading: in version 2 there is one more, the letter of the depth.
fn put_heading(profile: Profile, text: &mut [u8], north: u64, south: u64)
    requires { IsProfile profile × (north ≤ 3) × (south ≤ 3) }
    ensures { text.new ≡ sets text.old 0 (heading profile north south) }
{
    put_front(text, version_of(profile), north, south);
    match profile {
        Profile::Full => {}
        Profile::Handheld(depth) => put(text, 7, b'a' + depth as u8),
    }
}

fn is_version(version: u64) -> bool
    ensures { result ≡ is_version version }
{
    if version == 1 {
        return true;
    }
    version == 2
}

// 5, 2, 4, 10, 14 or 11, or 0 where a good list and a profile are asked for.
fn asked_refusal(version: u64, depth: u64, arrangement: Arrangement, codes: &[u64]) -> u64
    ensures { result ≡ asked_refusal version depth arrangement codes.now }
{
    let wrong = arrangement.refusal();
    if wrong != 0 {
        return wrong;
    }
    if depth > 15 {
        return 2;
    }
    let refused = list_refusal(arrangement, codes);
    if refused == 4 {
        return 4; // before the version
    }
    if !is_version(version) {
        return 10;
    }
    refused
}

// The text of a good list, to the front of a room that has place for it; and its length. Nothing is tested here, and nothing is measured.
pub fn put_text(profile: Profile, arrangement: Arrangement, codes: &[u64], text: &mut [u8]) -> usize
    requires { IsProfile profile × IsArrangement arrangement × (codes_refusal arrangement codes.now ≡ 0) × (length (text_of profile arrangement codes.now) ≤ length text.old) }
    ensures value { result ≡ length (text_of profile arrangement codes.now) }
    ensures text_after { text.new ≡ text_in profile arrangement codes.now text.old }
{
    let north = arrangement.north;
    let south = arrangement.south;
    put_heading(profile, text, north, south);
    let body = reading::heading_length(profile);
    let end = put_list(codes, 0, 6, 0, code::FACE_SIZE, text, body, b'N');
    end.place
}

// The text of a good list, into `text`: 15, 13 or 8 where there is none.
fn write_good(
    profile: Profile,
    arrangement: Arrangement,
    codes: &[u64],
    text: &mut [u8],
) -> Result<u64, u64>
    requires { IsProfile profile × IsArrangement arrangement × (codes_refusal arrangement codes.now ≡ 0) }
    ensures value { result ≡ written (fit_refusal profile arrangement codes.now (length text.old)) (length (text_of profile arrangement codes.now)) }
    ensures text_after { text.new ≡ given (fit_refusal profile arrangement codes.now (length text.old)) (text_in profile arrangement codes.now text.old) text.old }
{
    let extent = length_of(profile, codes);
    let length = extent.length;
    if breaks(profile, extent.depth) {
        return Err(15);
    }
    if length > reading::LONGEST as u64 {
        return Err(13);
    }
    if (text.len() as u64) < length {
        return Err(8);
    }
    put_text(profile, arrangement, codes, text);
    Ok(length)
}

// The text of a list of codes, of this version and, in version 2, of this depth, into `text`: 5, 2, 4, 10, 14, 11, 15, 13 or 8 where there is none.
pub fn write(
    version: u64,
    depth: u64,
    arrangement: Arrangement,
    codes: &[u64],
    text: &mut [u8],
) -> Result<u64, u64>
    ensures value { result ≡ written (write_refusal version depth arrangement codes.now (length text.old)) (length (text_of (asks_for version depth) arrangement codes.now)) }
    ensures text_after { text.new ≡ given (write_refusal version depth arrangement codes.now (length text.old)) (text_in (asks_for version depth) arrangement codes.now text.old) text.old }
{
    let refused = asked_refusal(version, depth, arrangement, codes);
    if refused != 0 {
        return Err(refused);
    }
    if version == 1 {
        return write_good(Profile::Full, arrangement, codes, text);
    }
    write_good(Profile::Handheld(depth), arrangement, codes, text)
}
