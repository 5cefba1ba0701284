// The rescue of a hand-edited text: its proper text, and the list of what was changed. One pass marks each byte with its kinds of change; counting
// and writing only read the marks.
#![tactic(auto)]

ghost use Rattle.std.specs.Prelude.{◌≡◌, true, false, cond, [], ◌++◌, ◌+◌, ◌-◌, ◌*◌, ◌/◌, ◌%◌, ◌≤◌, ◌<◌, eqb, length, take, drop, Err};
ghost use Rattle.logic.specs.Rise.{Rise};
ghost use Rattle.track.specs.Track.{number_below};
ghost use Rattle.walk.specs.Walk.{origin, Walks};
ghost use Rattle.rescue.specs.Internal.Marks.{has_code, lacking, Clear, bit, Seen, Zeros, late_at, shuts, mask_of, masks, kinds_at, changes_in};
ghost use Rattle.rescue.specs.Internal.Marking.{placed, Put};
ghost use Rattle.rescue.specs.Internal.Note.{Noted, FirstIs, FourthIs};
ghost use Rattle.cell.specs.Cell.{IsArrangement};
ghost use Rattle.reading.specs.declared.Profile.TheVariants.{Full};
ghost use Rattle.writing.specs.Write.{text_of, write_refusal};
ghost use Rattle.sorting.specs.Sorted.{sorted};
ghost use Rattle.logic.specs.Lent.{in_front};
ghost use Rattle.loose.specs.Look.{loose_arrangement, loose_refusal};
ghost use Rattle.proper.specs.Proper.{proper_of};
ghost use Rattle.proper.specs.Thin.{thinned};
ghost use Rattle.proper.specs.Wholes.{loose_codes};
ghost use Rattle.rescue.specs.Rescue.{flat, changes_of, RescueIs};
ghost use Rattle.rescue.specs.Internal.Give.{Gives};
ghost use Rattle.rescue.specs.Internal.Same.{Same, GivesSame};

use cell::Arrangement;
use reader::Checked;
use reading::{Profile, Refused};
use walk::Spot;

// How many of the rising keys are below a code, looked for from the hint on.
fn place_in(keys: &[u64], hint: usize, code: u64) -> usize
    requires { Rise keys.now }
    ensures { result ≡ number_below code keys.now }
{
    track::place_near(keys, keys.len(), hint, code)
}

// Whether the key at a place is a code. At the code's own place it tells whether the code is one of the keys.
fn holds(keys: &[u64], k: usize, code: u64) -> bool
    requires { Rise keys.now }
    ensures k_in_bounds { result ≡ true → (k < length keys.now) × (k ≡ number_below code keys.now) × (has_code code keys.now ≡ true) }
    ensures value { k ≡ number_below code keys.now → result ≡ has_code code keys.now }
{
    if k >= keys.len() {
        return false;
    }
    keys[k] == code
}

// The place of a code that is looked for; else the last place.
fn place_if(wanted: bool, keys: &[u64], last: usize, code: u64) -> usize
    requires { Rise keys.now }
    ensures { wanted ≡ true → result ≡ number_below code keys.now }
{
    if !wanted {
        return last;
    }
    place_in(keys, last, code)
}

// The same for a code that is mostly the key behind the last one, which is tried first.
fn place_next(wanted: bool, keys: &[u64], last: usize, code: u64) -> usize
    requires { Rise keys.now }
    ensures { wanted ≡ true → result ≡ number_below code keys.now }
{
    if !wanted {
        return last;
    }
    if last >= keys.len() {
        return place_in(keys, last, code);
    }
    let next = last + 1;
    if holds(keys, next, code) {
        return next;
    }
    place_in(keys, next, code)
}

// 0 where a code, whose place is k, is none of the rising keys; 1 where it is one that was not met before; 2 where it was.
fn note(keys: &[u64], seen: &mut [u8], k: usize, code: u64) -> u64
    requires { Rise keys.now × (length keys.now ≤ length seen.old) × (k ≡ number_below code keys.now) }
    ensures { Noted keys.now seen.old seen.new code result }
{
    if k >= keys.len() {
        return 0;
    }
    if keys[k] != code {
        return 0;
    }
    if seen[k] != 0 {
        return 2;
    }
    seen[k] = 1;
    1
}

// Whether a letter's or digit's code, whose place is k where it is whole, may stand for a new cell of the answer: not where it is one of the keys.
fn may_be_new(whole: bool, keys: &[u64], k: usize, code: u64) -> bool
    requires { Rise keys.now × (whole ≡ true → k ≡ number_below code keys.now) }
    ensures { result ≡ false → has_code code keys.now ≡ true }
{
    if !whole {
        return true;
    }
    let held = holds(keys, k, code);
    !held
}

// Of the first `count` codes, those that are none of the rising keys, to the front; and how many they are. The key behind the last one that was met is tried
// first.
fn leave(keys: &[u64], codes: &mut [u64], count: usize) -> usize
    requires { Rise keys.now × (count ≤ length codes.old) }
    ensures value { result ≡ length (lacking keys.now (take count codes.old)) }
    ensures codes_after { codes.new ≡ lacking keys.now (take count codes.old) ++ drop (length (lacking keys.now (take count codes.old))) codes.old }
{
    let mut kept: usize = 0;
    let mut near: usize = 0;
    let mut i: usize = 0;
    while i < count {
        let code = codes[i];
        i = i + 1;
        if holds(keys, near, code) {
            near = near + 1;
            continue;
        }
        near = place_in(keys, near, code);
        if holds(keys, near, code) {
            near = near + 1;
            continue;
        }
        codes[kept] = code;
        kept = kept + 1;
    }
    kept
}

// Kind 1: a whole cell that is none of the largest, or was named before.
fn first_kind(whole: bool, code: u64, largest: &[u64], named: &mut [u8], k: usize) -> bool
    requires { Rise largest.now × (length largest.now ≤ length named.old) × (whole ≡ true → k ≡ number_below code largest.now) }
    ensures { FirstIs whole code largest.now named.old named.new result }
{
    if !whole {
        return false;
    }
    let standing = note(largest, named, k, code);
    standing != 1
}

// Kind 4: the first that stands for a cell of the answer that is none of the largest. It is looked up only where it may be one.
fn fourth_kind(new: bool, code: u64, fresh: &[u64], stood: &mut [u8], k: usize) -> bool
    requires { Rise fresh.now × (length fresh.now ≤ length stood.old) × (new ≡ true → k ≡ number_below code fresh.now) × (new ≡ false → has_code code fresh.now ≡ false) }
    ensures { FourthIs code fresh.now stood.old stood.new result }
{
    if !new {
        return false;
    }
    let standing = note(fresh, stood, k, code);
    standing == 1
}

// Kind 2, by the byte right before, and the numbers of the cells before and after.
fn late(before: u8, old: u64, new: u64) -> bool
    ensures { result ≡ late_at before old new }
{
    if before == b'(' {
        return false;
    }
    new <= old
}

// Kind 3, at an opening bracket.
fn shut_at(body: &[u8], i: usize) -> u8
    requires { i < length body.now }
    ensures { result ≡ cond (shuts (drop (i + 1) body.now)) 8 0 }
{
    let next = i + 1;
    if next == body.len() {
        return 0;
    }
    if body[next] == b')' {
        return 8;
    }
    0
}

fn one(t: bool) -> u8
    ensures { (result ≡ bit t) × (result ≤ 1) }
{
    if t {
        return 1;
    }
    0
}

fn mask(first: bool, second: bool, fourth: bool) -> u8
    ensures { result ≡ mask_of first second fourth }
{
    one(first) + one(second) * 2 + one(fourth) * 4
}

// For each byte of a body, the kinds of change there. Codes are looked for from where the last ones stood, since most letters and digits rise.
fn mark(
    arrangement: Arrangement,
    body: &[u8],
    largest: &[u64],
    fresh: &[u64],
    marks: &mut [u8],
    named: &mut [u8],
    stood: &mut [u8],
)
    requires walks { Walks body.now 0 origin × (length body.now ≤ length marks.old) × IsArrangement arrangement }
    requires rise { Rise largest.now × (length largest.now ≤ length named.old) × Seen largest.now [] named.old }
    requires rise_2 { Rise fresh.now × (length fresh.now ≤ length stood.old) × Seen fresh.now [] stood.old × Clear largest.now fresh.now }
    ensures { take (length body.now) marks.new ≡ masks arrangement largest.now fresh.now 40 origin [] [] body.now }
{
    let mut spot = Spot {
        resolution: 0,
        number: 0,
        first: 0,
    };
    let mut before: u8 = b'(';
    let mut near: usize = 0;
    let mut next: usize = 0;
    let mut i: usize = 0;
    while i < body.len() {
        let b = body[i];
        let old = spot.number;
        spot = spot.after(b);
        if b == b'(' {
            marks[i] = shut_at(body, i);
            before = b;
            i = i + 1;
            continue;
        }
        if b == b')' {
            marks[i] = 0;
            before = b;
            i = i + 1;
            continue;
        }
        let code = code::code_as(arrangement, spot.resolution, spot.number);
        let whole = walk::whole_at(body, i);
        near = place_next(whole, largest, near, code);
        let new = may_be_new(whole, largest, near, code);
        next = place_if(new, fresh, next, code);
        let first = first_kind(whole, code, largest, named, near);
        let fourth = fourth_kind(new, code, fresh, stood, next);
        marks[i] = mask(first, late(before, old, spot.number), fourth);
        before = b;
        i = i + 1;
    }
}

// How many changes a byte's number stands for.
fn kinds(m: u8) -> u64
    ensures { (result ≡ length (kinds_at 7 m)) × (result ≤ 4) }
{
    let first = one(m % 2 == 1) as u64;
    let second = one(m / 2 % 2 == 1) as u64;
    let third = one(m / 8 == 1) as u64;
    let fourth = one(m / 4 % 2 == 1) as u64;
    first + second + third + fourth
}

// How many changes the numbers stand for.
fn count(marks: &[u8]) -> u64
    requires { length marks.now ≤ 65536 }
    ensures { (result ≡ length (changes_in 7 marks.now)) × (result ≤ 262144) }
{
    let mut n: u64 = 0;
    let mut i: usize = 0;
    while i < marks.len() {
        n = n + kinds(marks[i]);
        i = i + 1;
    }
    n
}

// A change, where there is one, to the place n of `out`; and the place behind it.
fn put(out: &mut [u64], n: usize, place: u64, kind: u64, on: bool) -> usize
    requires { n + length (placed on place kind) ≤ length out.old }
    ensures { Put out.old out.new n result (placed on place kind) }
{
    if !on {
        return n;
    }
    out[n] = place;
    out[n + 1] = kind;
    n + 2
}

// The changes that a byte's number stands for, from the place n of `out` on; and the place behind them.
fn put_kinds(out: &mut [u64], n: usize, place: u64, m: u8) -> usize
    requires { n + length (flat (kinds_at place m)) ≤ length out.old }
    ensures { Put out.old out.new n result (flat (kinds_at place m)) }
{
    let first = put(out, n, place, 1, m % 2 == 1);
    let second = put(out, first, place, 2, m / 2 % 2 == 1);
    let third = put(out, second, place, 3, m / 8 == 1);
    put(out, third, place, 4, m / 4 % 2 == 1)
}

// The changes that the numbers stand for, to the front of `out`.
fn write(marks: &[u8], out: &mut [u64])
    requires { (length marks.now ≤ 65536) × (length (flat (changes_in 7 marks.now)) ≤ length out.old) }
    ensures { out.new ≡ flat (changes_in 7 marks.now) ++ drop (length (flat (changes_in 7 marks.now))) out.old }
{
    let mut n: usize = 0;
    let mut i: usize = 0;
    while i < marks.len() {
        if marks[i] == 0 {
            i = i + 1;
            continue;
        }
        n = put_kinds(out, n, i as u64 + 7, marks[i]);
        i = i + 1;
    }
}

// A text, to the front of `out`.
fn copy(text: &[u8], out: &mut [u8])
    requires { length text.now ≤ length out.old }
    ensures { out.new ≡ text.now ++ drop (length text.now) out.old }
{
    let mut k: usize = 0;
    while k < text.len() {
        out[k] = text[k];
        k = k + 1;
    }
}

// The text of cells of which nothing is refused, to the front of `made`; and its length. They are known to be good, so they are not tested again.
fn make(arrangement: Arrangement, cells: &[u64], made: &mut [u8]) -> usize
    requires { write_refusal 1 15 arrangement cells.now (length made.old) ≡ 0 }
    ensures { (result ≡ length (text_of Full arrangement cells.now)) × (take result made.new ≡ text_of Full arrangement cells.now) }
{
    writing::put_text(Profile::Full, arrangement, cells, made)
}

// What is changed, by the numbers of the bytes behind the heading. `made` is the proper text, and `largest` holds the largest whole cells.
fn find(
    text: &[u8],
    arrangement: Arrangement,
    made: &[u8],
    largest: &[u64],
    spare: &mut [u64],
    marks: &mut [u8],
    named: &mut [u8],
    stood: &mut [u8],
)
    requires text_value { (loose_refusal text.now ≡ 0) × (made.now ≡ proper_of text.now) × (arrangement ≡ loose_arrangement text.now) × (largest.now ≡ thinned 0 (sorted (loose_codes arrangement text.now))) }
    requires text_in_bounds { (length text.now ≤ length spare.old) × (length text.now ≤ length marks.old) × (length text.now ≤ length named.old) × (length text.now ≤ length stood.old) }
    requires zeros { Zeros named.old × Zeros stood.old }
    ensures { changes_in 7 (take (length text.now - 7) marks.new) ≡ changes_of text.now }
{
    let answers = proper::put_wholes(made, arrangement, spare);
    let fresh = leave(largest, spare, answers);
    mark(
        arrangement,
        &text[7..],
        largest,
        &spare[..fresh],
        marks,
        named,
        stood,
    );
}

// How long the rescued text is, and how many changes were listed.
#[derive(Clone, Copy)]
pub struct Rescued {
    pub length: u64,
    pub changes: u64,
}

fn refused(refusal: u64, place: u64) -> Result<Rescued, Refused>
    ensures { result ≡ Err (record { refusal = refusal; place = place }) }
{
    Err(Refused { refusal, place })
}

// A proper text and what was changed, given: both rooms are tested before anything is written.
fn give(made: &[u8], marks: &[u8], out: &mut [u8], list: &mut [u64]) -> Result<Rescued, Refused>
    requires { length marks.now ≤ 65536 }
    ensures { Gives made.now marks.now out.old out.new list.old list.new result }
{
    let changes = count(marks);
    if out.len() < made.len() {
        return refused(8, 0);
    }
    if (list.len() as u64) < changes * 2 {
        return refused(8, 0);
    }
    copy(made, out);
    write(marks, list);
    Ok(Rescued {
        length: made.len() as u64,
        changes,
    })
}

// Whether the reader accepts a looser text: then it is its own proper text.
fn is_proper(text: &[u8]) -> bool
    requires { loose_refusal text.now ≡ 0 }
    ensures { result ≡ true → Same text.now }
{
    match reader::check(text) {
        Err(Refused { .. }) => false,
        Ok(Checked { .. }) => true,
    }
}

// A proper text given as it stands.
fn give_same(text: &[u8], out: &mut [u8]) -> Result<Rescued, Refused>
    ensures { GivesSame text.now out.old out.new result }
{
    if out.len() < text.len() {
        return refused(8, 0);
    }
    copy(text, out);
    Ok(Rescued {
        length: text.len() as u64,
        changes: 0,
    })
}

// The rescue of a looser text in lent memory, each part of it as long as the text at least.
fn rescue_in(
    text: &[u8],
    arrangement: Arrangement,
    codes: &mut [u64],
    spare: &mut [u64],
    made: &mut [u8],
    marks: &mut [u8],
    named: &mut [u8],
    stood: &mut [u8],
    out: &mut [u8],
    list: &mut [u64],
) -> Result<Rescued, Refused>
    requires text_value { (loose_refusal text.now ≡ 0) × (arrangement ≡ loose_arrangement text.now) }
    requires text_in_bounds { (length text.now ≤ length codes.old) × (length codes.old ≤ length spare.old) × (length text.now ≤ length made.old) }
    requires text_in_bounds_2 { (length text.now ≤ length marks.old) × (length text.now ≤ length named.old) × (length text.now ≤ length stood.old) }
    requires zeros { Zeros named.old × Zeros stood.old }
    ensures { RescueIs text.now out.old out.new list.old list.new result }
{
    let count = proper::put_largest(text, arrangement, codes, spare);
    let largest = &codes[..count];
    let length = make(arrangement, largest, made);
    let proper = &made[..length];
    find(
        text,
        arrangement,
        proper,
        largest,
        spare,
        marks,
        named,
        stood,
    );
    give(proper, &marks[..text.len() - 7], out, list)
}

// The rescue of a looser text of at most 4,096 bytes. The memory of a call is cleared each time, so short texts have little of it.
fn rescue_short(
    text: &[u8],
    arrangement: Arrangement,
    out: &mut [u8],
    list: &mut [u64],
) -> Result<Rescued, Refused>
    requires { (loose_refusal text.now ≡ 0) × (arrangement ≡ loose_arrangement text.now) × (length text.now ≤ 4096) }
    ensures { RescueIs text.now out.old out.new list.old list.new result }
{
    let mut codes = [0u64; 4096];
    let mut spare = [0u64; 4096];
    let mut made = [0u8; 4096];
    let mut marks = [0u8; 4096];
    let mut named = [0u8; 4096];
    let mut stood = [0u8; 4096];
    rescue_in(
        text,
        arrangement,
        &mut codes,
        &mut spare,
        &mut made,
        &mut marks,
        &mut named,
        &mut stood,
        out,
        list,
    )
}

// The rescue of any looser text.
fn rescue_long(
    text: &[u8],
    arrangement: Arrangement,
    out: &mut [u8],
    list: &mut [u64],
) -> Result<Rescued, Refused>
    requires { (loose_refusal text.now ≡ 0) × (arrangement ≡ loose_arrangement text.now) }
    ensures { RescueIs text.now out.old out.new list.old list.new result }
{
    let mut codes = [0u64; 65536];
    let mut spare = [0u64; 65536];
    let mut made = [0u8; 65536];
    let mut marks = [0u8; 65536];
    let mut named = [0u8; 65536];
    let mut stood = [0u8; 65536];
    rescue_in(
        text,
        arrangement,
        &mut codes,
        &mut spare,
        &mut made,
        &mut marks,
        &mut named,
        &mut stood,
        out,
        list,
    )
}

// The rescue of a looser text.
fn rescue_loose(
    text: &[u8],
    arrangement: Arrangement,
    out: &mut [u8],
    list: &mut [u64],
) -> Result<Rescued, Refused>
    requires { (loose_refusal text.now ≡ 0) × (arrangement ≡ loose_arrangement text.now) }
    ensures { RescueIs text.now out.old out.new list.old list.new result }
{
    if is_proper(text) {
        return give_same(text, out);
    }
    if text.len() <= 4096 {
        return rescue_short(text, arrangement, out, list);
    }
    rescue_long(text, arrangement, out, list)
}

// The rescue of any bytes: the proper text into `out`, and what was changed, place and kind one behind the other, into `list`; 13, 10, 9 or 8 where
// there is none.
pub fn rescue(text: &[u8], out: &mut [u8], list: &mut [u64]) -> Result<Rescued, Refused>
    ensures { RescueIs text.now out.old out.new list.old list.new result }
{
    match loose::look(text) {
        Err(Refused { refusal, place }) => refused(refusal, place),
        Ok(arrangement) => rescue_loose(text, arrangement, out, list),
    }
}
