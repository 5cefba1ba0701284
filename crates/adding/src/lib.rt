// One cell more in a text, in place.
#![tactic(auto)]

ghost use Rattle.std.specs.Prelude.{◌≡◌, true, ◌++◌, ℕ, ◌+◌, ◌-◌, ◌≤◌, ◌<◌, eqb, length, take, drop, get_or, Err};
ghost use Rattle.std.proofs.lemmas.List.Edits.{sets};
ghost use Rattle.std.proofs.Math.Seq.{paste};
ghost use Rattle.code.specs.Code.{is_code, cell_of};
ghost use Rattle.name.specs.Name.{name_of};
ghost use Rattle.adding.specs.declared.Edit.TheVariants.{Put as PutAt};
ghost use Rattle.adding.specs.Add.{text_with, add_refusal, placed, added, length_after, Holding, Gains};
ghost use Rattle.adding.specs.Internal.Become.{Becomes};
ghost use Rattle.adding.specs.Internal.Edit.{nested, edited, EditFits};
ghost use Rattle.adding.specs.InMind.{InMind};
ghost use Rattle.adding.specs.Internal.Find.{run_in, whole_as, put_as, EndsIn, over_as, SkipIs, Stands, EditIs};
ghost use Rattle.adding.specs.Internal.Find.{OnWay, ReachIs, StartIs, becomes_whole, NearEdit};
ghost use Rattle.adding.specs.Internal.Fit.{breaks as breaks_it};

use cell::Arrangement;
use reader::Checked;
use reading::{Profile, Refused};

// What makes a text cover a cell too: nothing, for it is covered; the name's bytes from the k-th on, each in the list of the one before it, put in
// at a place; the bytes from one place to before another cut out. Or the nodes of a list are nine whole ones then, and they end at a place.
#[derive(Clone, Copy)]
pub enum Edit {
    Covered,
    Put(usize, usize),
    Cut(usize, usize),
    Full(usize),
}

// A refusal that has no place.
fn refused(refusal: u64) -> Result<usize, Refused>
    ensures { result ≡ Err (record { refusal = refusal; place = 0 }) }
{
    Err(Refused { refusal, place: 0 })
}

// Whether a byte that is not 0 stands at a place.
fn stands_at(text: &[u8], i: usize, byte: u8) -> bool
    requires { 0 < byte }
    ensures { result ≡ eqb (get_or text.now i 0) byte }
{
    if i >= text.len() {
        return false;
    }
    text[i] == byte
}

// How many whole nodes stand from a place on, before a node that holds a list.
fn run_at(text: &[u8], at: usize) -> usize
    requires { at ≤ length text.now }
    ensures { (result ≡ run_in (drop at text.now)) × (at + result ≤ length text.now) }
{
    let mut i = at;
    while i < text.len() {
        if !walk::whole_at(text, i) {
            return i - at;
        }
        i += 1;
    }
    i - at
}

// The node at `i`, whose bytes end at `end`, becomes whole, with `wholes` whole ones before it.
fn whole_from(text: &[u8], i: usize, end: usize, wholes: usize) -> Edit
    requires { (i < end) × (end ≤ length text.now) × (length text.now ≤ 65536) × (wholes ≤ 65536) }
    ensures { result ≡ whole_as i end wholes (run_in (drop end text.now)) }
{
    let after = run_at(text, end);
    if wholes + 1 + after == 9 {
        return Edit::Full(end + after);
    }
    Edit::Cut(i + 1, end)
}

// The name's bytes from `k` on go in at `i`, with `wholes` whole nodes before it.
fn put_from(text: &[u8], i: usize, k: usize, count: usize, wholes: usize) -> Edit
    requires { (i ≤ length text.now) × (k < count) × (length text.now ≤ 65536) × (wholes ≤ 65536) }
    ensures { result ≡ put_as i k count wholes (run_in (drop i text.now)) }
{
    if k + 1 < count {
        return Edit::Put(i, k);
    }
    let after = run_at(text, i);
    if wholes + 1 + after == 9 { // with it nine are whole
        return Edit::Full(i + after);
    }
    Edit::Put(i, k)
}

// Where nodes are passed over: the place behind them, and how many of them are whole.
#[derive(Clone, Copy)]
pub struct Skipped {
    pub place: usize,
    pub wholes: usize,
}

// Passes over the nodes of a list, or the faces, that come before the one of this byte.
fn skip(text: &[u8], at: usize, byte: u8) -> Skipped
    requires { length text.now ≤ 65536 }
    ensures { SkipIs text.now at byte result }
{
    let mut i = at;
    let mut wholes: usize = 0;
    while i < text.len() {
        let b = text[i];
        if b == b')' {
            return Skipped { place: i, wholes };
        }
        if byte <= b {
            return Skipped { place: i, wholes };
        }
        if walk::whole_at(text, i) {
            wholes += 1;
            i += 1;
            continue;
        }
        i = walk::past_node(text, i);
    }
    Skipped { place: i, wholes }
}

// What an edit of its list is to the node at `i`, with `wholes` whole ones before it.
fn over_list(text: &[u8], i: usize, edit: Edit, wholes: usize) -> Edit
    requires { (length text.now ≤ 65536) × (wholes ≤ 65536) × EndsIn i (length text.now) edit }
    ensures { result ≡ over_as i wholes text.now edit }
{
    match edit {
        Edit::Full(end) => whole_from(text, i, end + 1, wholes),
        Edit::Covered => Edit::Covered,
        Edit::Put(place, from) => Edit::Put(place, from),
        Edit::Cut(from, to) => Edit::Cut(from, to),
    }
}

// What makes the nodes that stand from `at` on cover the cell of the name's bytes from `k` on.
fn edit_at(text: &[u8], at: usize, name: &[u8], k: usize) -> Edit
    requires { (length text.now ≤ 65536) × (k < length name.now) × Stands text.now name.now at k }
    ensures { EditIs text.now name.now at k result }
{
    let byte = name[k];
    let skipped = skip(text, at, byte);
    let i = skipped.place;
    let wholes = skipped.wholes;
    if !stands_at(text, i, byte) {
        return put_from(text, i, k, name.len(), wholes);
    }
    if walk::whole_at(text, i) {
        return Edit::Covered;
    }
    if k + 1 == name.len() {
        return whole_from(text, i, walk::past_node(text, i), wholes);
    }
    over_list(text, i, edit_at(text, i + 2, name, k + 1), wholes)
}

// Moves the bytes from `at` to before `end` by `gap` places on.
fn open_gap(text: &mut [u8], at: usize, end: usize, gap: usize)
    requires { (at ≤ end) × (end + gap ≤ length text.old) }
    ensures { text.new ≡ take (at + gap) text.old ++ (take (end - at) (drop at text.old) ++ drop (end + gap) text.old) }
{
    let mut i = end;
    while i > at {
        text[i - 1 + gap] = text[i - 1];
        i = i - 1;
    }
}

// Moves `count` bytes from `to` on back to `from`.
fn close_gap(text: &mut [u8], from: usize, to: usize, count: usize)
    requires { (from ≤ to) × (to + count ≤ length text.old) }
    ensures { text.new ≡ paste text.old from (drop to text.old) count }
{
    let mut i: usize = 0;
    while i < count {
        text[from + i] = text[to + i];
        i += 1;
    }
}

// The name's bytes from `k` on, each in the list of the one before it, at a place of the text; and the place behind them.
fn put_nested(text: &mut [u8], place: usize, name: &[u8], k: usize) -> usize
    requires { (k < length name.now) × (place + length (nested (drop k name.now)) ≤ length text.old) }
    ensures text_after { text.new ≡ sets text.old place (nested (drop k name.now)) }
    ensures value { result ≡ place + length (nested (drop k name.now)) }
{
    text[place] = name[k];
    if k + 1 == name.len() {
        return place + 1;
    }
    text[place + 1] = b'(';
    let end = put_nested(text, place + 2, name, k + 1);
    text[end] = b')';
    end + 1
}

// Puts the name's bytes from `k` on in at a place of the text that the first `end` bytes are: 13 or 8 where it would be too long.
fn put_in(text: &mut [u8], end: usize, name: &[u8], at: usize, k: usize) -> Result<usize, Refused>
    requires { (end ≤ length text.old) × (end ≤ 65536) × (length name.now ≤ 16) × (at ≤ end) × (k < length name.now) }
    ensures { Becomes (edited name.now (take end text.old) (PutAt at k)) text.old text.new result }
{
    let gap = 3 * (name.len() - k) - 2;
    if end + gap > reading::LONGEST {
        return refused(13);
    }
    if end + gap > text.len() {
        return refused(8);
    }
    open_gap(text, at, end, gap);
    put_nested(text, at, name, k);
    Ok(end + gap)
}

// Edits the text that the first `end` bytes are.
fn change(text: &mut [u8], end: usize, name: &[u8], edit: Edit) -> Result<usize, Refused>
    requires { (end ≤ length text.old) × (end ≤ 65536) × (length name.now ≤ 16) × EditFits end (length name.now) edit }
    ensures { Becomes (edited name.now (take end text.old) edit) text.old text.new result }
{
    match edit {
        Edit::Covered => Ok(end),
        Edit::Full(_) => Ok(end),
        Edit::Cut(from, to) => {
            close_gap(text, from, to, end - to);
            Ok(from + (end - to))
        }
        Edit::Put(at, k) => put_in(text, end, name, at, k),
    }
}

// Whether the text with the cell breaks the profile: a covered cell changes nothing, any other one needs room for its digits below its face.
fn breaks(profile: Profile, face: u8, digits: u64, edit: Edit) -> bool
    ensures { result ≡ breaks_it profile face digits edit }
{
    let level = reading::level_of(profile);
    let room = reading::room_below(level, face, reading::depth_of(profile));
    match edit {
        Edit::Covered => false, // nothing is put in
        Edit::Put(_, _) => room < digits,
        Edit::Cut(_, _) => room < digits,
        Edit::Full(_) => room < digits,
    }
}

// A list of the text, by where it begins and how many letters and digits of a name lead to it; 0 is the text's faces.
#[derive(Clone, Copy)]
pub struct ListAt {
    pub place: usize,
    pub depth: usize,
}

// Whether the first `depth` letters and digits of a name are those of a code's name: never said where they are not.
fn same_way(name: &[u8], depth: usize, code: u64) -> bool
    requires { depth ≤ length name.now }
    ensures { result ≡ true → take depth name.now ≡ take depth (name_of (cell_of code)) }
{
    let mut last = [0u8; 16];
    let Ok(letters) = name::code_name(code, &mut last) else {
        return false;
    };
    if depth > letters as usize {
        return false;
    }
    check::same(&name[..depth], &last[..depth])
}

// Where to begin: at the faces, or where the last name led to if this one leads there too.
fn start_near(body: usize, name: &[u8], near: &[u64]) -> ListAt
    requires { length near.now ≡ 3 }
    ensures { StartIs body name.now near.now result }
{
    let depth = near[1] as usize;
    if depth < name.len() {
        if same_way(name, depth, near[2]) {
            let place = near[0] as usize;
            return ListAt { place, depth };
        }
    }
    ListAt {
        place: body,
        depth: 0,
    }
}

// Goes down the name's way from a list to the deepest one that is there, down to the one in which the last digit but one stands: of a flight's cells the
// next one most often lies in that list too.
fn reach(text: &[u8], from: usize, name: &[u8], first: usize) -> ListAt
    requires { (length text.now ≤ 65536) × (length name.now ≤ 16) × (first < length name.now) × ((body : ℕ) × OnWay text.now name.now body from first) }
    ensures { ReachIs text.now name.now from first result }
{
    let mut at = from;
    let mut k = first;
    while k + 2 < name.len() {
        let byte = name[k];
        let skipped = skip(text, at, byte);
        let i = skipped.place;
        if !stands_at(text, i, byte) {
            return ListAt {
                place: at,
                depth: k,
            };
        }
        if walk::whole_at(text, i) {
            return ListAt {
                place: at,
                depth: k,
            };
        }
        at = i + 2;
        k += 1;
    }
    ListAt {
        place: at,
        depth: k,
    }
}

// Whether an edit makes all nine nodes of its list whole.
fn is_full(edit: Edit) -> bool
    ensures { result ≡ becomes_whole edit }
{
    match edit {
        Edit::Covered => false,
        Edit::Put(_, _) => false,
        Edit::Cut(_, _) => false,
        Edit::Full(_) => true,
    }
}

// What makes the text cover the cell, looked for in a list on its way, which is kept in mind. Where all nine of the list are whole then, the lists
// above it change too: it is looked for from the faces on, and these are kept in mind.
fn edit_near(
    text: &[u8],
    body: usize,
    name: &[u8],
    list: ListAt,
    code: u64,
    near: &mut [u64],
) -> Edit
    requires { (length text.now ≤ 65536) × (list.depth < length name.now) × (length near.old ≡ 3) × OnWay text.now name.now body list.place list.depth }
    ensures { NearEdit text.now name.now body list.place list.depth code near.new result }
{
    let place = list.place;
    let depth = list.depth;
    let edit = edit_at(text, place, name, depth);
    near[2] = code;
    if is_full(edit) {
        near[0] = body as u64;
        near[1] = 0;
        return edit_at(text, body, name, 0);
    }
    near[0] = place as u64;
    near[1] = depth as u64;
    edit
}

// Adds the cell of a code to the text that the first `end` bytes are, which is accepted and is so again: 15 where it would break its profile, 13 or
// 8 where it would be too long. It is looked for near the one that was looked for last, which `near` has in mind: a place, a depth and a code. A text's
// faces may always be in mind: where they begin, 0, and any code.
pub fn add_near(
    profile: Profile,
    text: &mut [u8],
    end: usize,
    code: u64,
    near: &mut [u64],
) -> Result<usize, Refused>
    requires { Holding profile text.old end × (is_code code ≡ true) × InMind (take end text.old) near.old }
    ensures gains { Gains (take end text.old) (cell_of code) text.old text.new result }
    ensures holding { Holding profile text.new (length_after result end) }
    ensures in_mind { InMind (take (length_after result end) text.new) near.new }
{
    let mut name = [0u8; 16];
    let Ok(letters) = name::code_name(code, &mut name) else {
        return refused(4);
    };
    let count = letters as usize;
    let body = reading::heading_length(profile);
    let from = start_near(body, &name[..count], near);
    let list = reach(&text[..end], from.place, &name[..count], from.depth);
    let edit = edit_near(&text[..end], body, &name[..count], list, code, near);
    if breaks(profile, name[0] - b'N', letters - 1, edit) {
        return refused(15);
    }
    change(text, end, &name[..count], edit)
}

// The same with nothing in mind: from the faces on.
pub fn add_to(profile: Profile, text: &mut [u8], end: usize, code: u64) -> Result<usize, Refused>
    requires { Holding profile text.old end × (is_code code ≡ true) }
    ensures gains { Gains (take end text.old) (cell_of code) text.old text.new result }
    ensures holding { Holding profile text.new (length_after result end) }
{
    let mut near = [0u64; 3];
    near[0] = reading::heading_length(profile) as u64;
    add_near(profile, text, end, code, &mut near)
}

// Adds the cell of a code to the text that the first `end` of any bytes are said to be: 4; 13 and 8 for their number; 10, 9 and 14 as in asking; 15,
// 13 and 8 for the text with the cell.
pub fn add(text: &mut [u8], end: usize, code: u64) -> Result<usize, Refused>
    ensures value { result ≡ added (add_refusal text.old end code) (take end text.old) code }
    ensures text_after { text.new ≡ placed (add_refusal text.old end code) (text_with (take end text.old) (cell_of code)) text.old }
{
    if !code::is_code(code) {
        return refused(4);
    }
    if end > reading::LONGEST {
        return refused(13);
    }
    if end > text.len() {
        return refused(8); // not all lent
    }
    let checked = reader::check(&text[..end])?;
    let arrangement = checked.arrangement;
    if !code::is_of(arrangement, code) {
        return refused(14);
    }
    add_to(checked.profile, text, end, code)
}
