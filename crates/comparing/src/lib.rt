// What two texts cover: only the first, only the second, and both. Both are gone over at once, and no list is held.
#![tactic(auto)]

ghost use Rattle.std.specs.Prelude.{◌≡◌, true, false, ◌||◌, ltb, ◌+◌, ◌-◌, ◌*◌, ◌^◌, ◌≤◌, ◌<◌, length, set};
ghost use Rattle.cell.specs.Cell.{IsArrangement};
ghost use Rattle.code.specs.Number.{code_as};
ghost use Rattle.comparing.specs.Shared.{divides};
ghost use Rattle.comparing.specs.Compare.{lists, arrangements_differ, Compares};
ghost use Rattle.comparing.specs.Internal.Found.{past_of, weight, ChildIs, CellFound, NodeFound, ListFound, WasRead, TextsMeasured, TextsFound, tied_up};

use cell::Arrangement;
use reader::Checked;
use reading::Refused;

// How much of a cell a text covers: nothing, all, or what its list covers.
const NOTHING: u64 = 0;

const WHOLE: u64 = 1;

const LIST: u64 = 2;

// How many cells a listing has, and the sum of their sizes.
#[derive(Clone, Copy)]
pub struct Listing {
    pub count: u64,
    pub size: u64,
}

// What only the first text covers, what only the second, and what both.
#[derive(Clone, Copy)]
pub struct Compared {
    pub first: Listing,
    pub second: Listing,
    pub both: Listing,
}

// How much of a cell a text covers, and the place of the next byte.
#[derive(Clone, Copy)]
struct Child {
    portion: u64,
    next: usize,
}

// Where the comparison stands: the places of the next bytes of the two texts, how many cells each listing has so far, and the sizes of those in both.
#[derive(Clone, Copy)]
struct Cursor {
    first: usize,
    second: usize,
    firsts: usize,
    seconds: usize,
    boths: usize,
    size: u64,
}

// What the heading of a text that was accepted says of it, the sum of sizes, and where its body starts.
#[derive(Clone, Copy)]
struct Read {
    arrangement: Arrangement,
    size: u64,
    body: usize,
}

// How much is covered of the child whose letter or digit is `byte`, where this portion of the parent is.
fn child_at(text: &[u8], at: usize, portion: u64, byte: u8) -> Child
    ensures { ChildIs text.now at portion byte result }
{
    if portion != LIST {
        return Child { portion, next: at };
    }
    if at >= text.len() {
        return Child {
            portion: NOTHING,
            next: at,
        };
    }
    if text[at] != byte {
        return Child {
            portion: NOTHING,
            next: at,
        };
    }
    let next = at + 1;
    if next >= text.len() {
        return Child {
            portion: WHOLE,
            next,
        };
    }
    if text[next] != b'(' {
        return Child {
            portion: WHOLE,
            next,
        };
    }
    Child {
        portion: LIST,
        next: next + 1,
    }
}

// The place behind the `)` of a list, where there was one.
fn past_list(text: &[u8], at: usize, portion: u64) -> usize
    ensures { result ≡ past_of (length text.now) at portion }
{
    if portion != LIST {
        return at;
    }
    if at < text.len() {
        return at + 1;
    }
    at
}

// The code of a cell at a place of a listing, if there is such a place.
fn put(codes: &mut [u64], place: usize, arrangement: Arrangement, resolution: u64, number: u64)
    requires arrangement { IsArrangement arrangement }
    requires resolution_bound { (resolution ≤ 15) × (number < 9 ^ (resolution + 1)) }
    ensures { codes.new ≡ set codes.old place (code_as arrangement resolution number) }
{
    if place < codes.len() {
        codes[place] = code::code_as(arrangement, resolution, number);
    }
}

// A cell for which neither text has a list goes to one listing, or to none.
fn list_cell(
    at: Cursor,
    x: u64,
    y: u64,
    arrangement: Arrangement,
    resolution: u64,
    number: u64,
    firsts: &mut [u64],
    seconds: &mut [u64],
    boths: &mut [u64],
) -> Cursor
    requires arrangement { IsArrangement arrangement }
    requires resolution_bound { (resolution ≤ 15) × (number < 9 ^ (resolution + 1)) × (weight at + 2 * 9 ^ (15 - resolution) ≤ 2 ^ 62) }
    ensures { CellFound at x y arrangement resolution number (lists firsts.old seconds.old boths.old) (lists firsts.new seconds.new boths.new) result }
{
    let mut next = at;
    if x == NOTHING {
        if y == NOTHING {
            return at;
        }
        put(seconds, at.seconds, arrangement, resolution, number);
        next.seconds = at.seconds + 1;
        return next;
    }
    if y == NOTHING {
        put(firsts, at.firsts, arrangement, resolution, number);
        next.firsts = at.firsts + 1;
        return next;
    }
    put(boths, at.boths, arrangement, resolution, number);
    next.boths = at.boths + 1;
    next.size = at.size + ternary::nine_power(15 - resolution);
    next
}

// Whether one of the texts has a list for a cell.
fn is_divided(x: u64, y: u64) -> bool
    ensures { result ≡ divides x y }
{
    if x == LIST {
        return true;
    }
    y == LIST
}

// The cells inside a cell for which one of the texts has a list: those inside its children.
#[cycle(list_children_list_inside)]
fn list_inside(
    first: &[u8],
    second: &[u8],
    at: Cursor,
    x: u64,
    y: u64,
    arrangement: Arrangement,
    resolution: u64,
    number: u64,
    firsts: &mut [u64],
    seconds: &mut [u64],
    boths: &mut [u64],
) -> Cursor
    requires arrangement { IsArrangement arrangement × (divides x y ≡ true) }
    requires resolution_bound { (resolution ≤ 15) × (number < 9 ^ (resolution + 1)) × (weight at + 2 * 9 ^ (15 - resolution) ≤ 2 ^ 62) }
    ensures { NodeFound first.now second.now at x y arrangement resolution number (lists firsts.old seconds.old boths.old) (lists firsts.new seconds.new boths.new) result }
{
    if resolution >= 15 {
        return at; // no text is so deep
    }
    let mut ends = list_children(
        first,
        second,
        at,
        x,
        y,
        arrangement,
        9,
        b'0',
        resolution + 1,
        number * 9,
        firsts,
        seconds,
        boths,
    );
    ends.first = past_list(first, ends.first, x);
    ends.second = past_list(second, ends.second, y);
    ends
}

// The cells inside those of the children that are left, from the one of this byte and this number on.
#[cycle(list_children_list_inside)]
fn list_children(
    first: &[u8],
    second: &[u8],
    at: Cursor,
    x: u64,
    y: u64,
    arrangement: Arrangement,
    left: u64,
    byte: u8,
    resolution: u64,
    number: u64,
    firsts: &mut [u64],
    seconds: &mut [u64],
    boths: &mut [u64],
) -> Cursor
    requires arrangement { IsArrangement arrangement }
    requires resolution_bound { (resolution ≤ 15) × (left ≤ 9) × (byte + left ≤ 255) × (number + left ≤ 9 ^ (resolution + 1)) × (weight at + left * (2 * 9 ^ (15 - resolution)) ≤ 2 ^ 62) }
    ensures { ListFound first.now second.now at x y arrangement left byte resolution number (lists firsts.old seconds.old boths.old) (lists firsts.new seconds.new boths.new) result }
{
    let mut cursor = at;
    let mut name = byte;
    let mut child = number;
    let mut more = left;
    while more > 0 {
        let one = child_at(first, cursor.first, x, name);
        let two = child_at(second, cursor.second, y, name);
        cursor.first = one.next;
        cursor.second = two.next;
        if is_divided(one.portion, two.portion) {
            cursor = list_inside(
                first,
                second,
                cursor,
                one.portion,
                two.portion,
                arrangement,
                resolution,
                child,
                firsts,
                seconds,
                boths,
            );
        } else {
            cursor = list_cell(
                cursor,
                one.portion,
                two.portion,
                arrangement,
                resolution,
                child,
                firsts,
                seconds,
                boths,
            );
        }
        name = name + 1;
        child = child + 1;
        more = more - 1;
    }
    cursor
}

// The three listings of two texts, in one pass: how long each is, and its codes as far as there is room.
fn list_texts(
    first: &[u8],
    second: &[u8],
    one: Read,
    two: Read,
    firsts: &mut [u64],
    seconds: &mut [u64],
    boths: &mut [u64],
) -> Cursor
    requires { WasRead first.now one × WasRead second.now two }
    ensures { TextsFound first.now second.now (lists firsts.old seconds.old boths.old) (lists firsts.new seconds.new boths.new) result }
{
    let at = Cursor {
        first: one.body,
        second: two.body,
        firsts: 0,
        seconds: 0,
        boths: 0,
        size: 0,
    };
    let arrangement = one.arrangement;
    list_children(
        first,
        second,
        at,
        LIST,
        LIST,
        arrangement,
        6,
        b'N',
        0,
        0,
        firsts,
        seconds,
        boths,
    )
}

// How long the three listings of two texts are, and the sizes of what is in both: the pass has no room, so nothing is stored.
fn measure_texts(first: &[u8], second: &[u8], one: Read, two: Read) -> Cursor
    requires { WasRead first.now one × WasRead second.now two }
    ensures { TextsMeasured first.now second.now result }
{
    let mut firsts = [0u64; 0];
    let mut seconds = [0u64; 0];
    let mut boths = [0u64; 0];
    list_texts(
        first,
        second,
        one,
        two,
        &mut firsts,
        &mut seconds,
        &mut boths,
    )
}

// Whether any room is short.
fn is_short(found: Cursor, firsts: usize, seconds: usize, boths: usize) -> bool
    ensures { result ≡ (ltb firsts found.firsts || (ltb seconds found.seconds || ltb boths found.boths)) }
{
    if firsts < found.firsts {
        return true;
    }
    if seconds < found.seconds {
        return true;
    }
    boths < found.boths
}

// How long the listings are, and their sizes: what is in both and what is in one only make up that one, so two sizes follow from the third.
fn listings(found: Cursor, first: u64, second: u64) -> Result<Compared, Refused>
    requires { (found.size ≤ first) × (found.size ≤ second) }
    ensures { result ≡ tied_up found first second }
{
    Ok(Compared {
        first: Listing {
            count: found.firsts as u64,
            size: first - found.size,
        },
        second: Listing {
            count: found.seconds as u64,
            size: second - found.size,
        },
        both: Listing {
            count: found.boths as u64,
            size: found.size,
        },
    })
}

// The three listings of two texts of one arrangement: 8 where a room is short.
fn list_both(
    first: &[u8],
    second: &[u8],
    one: Read,
    two: Read,
    firsts: &mut [u64],
    seconds: &mut [u64],
    boths: &mut [u64],
) -> Result<Compared, Refused>
    requires { WasRead first.now one × WasRead second.now two × (arrangements_differ first.now second.now ≡ false) }
    ensures { Compares first.now second.now (lists firsts.old seconds.old boths.old) (lists firsts.new seconds.new boths.new) result }
{
    let found = measure_texts(first, second, one, two);
    if is_short(found, firsts.len(), seconds.len(), boths.len()) {
        return Err(Refused {
            refusal: 8,
            place: 0,
        });
    }
    list_texts(first, second, one, two, firsts, seconds, boths);
    listings(found, one.size, two.size)
}

// The three listings, where the first text was read: the second text's refusal, then 14, then 8.
fn compare_second(
    first: &[u8],
    second: &[u8],
    one: Read,
    firsts: &mut [u64],
    seconds: &mut [u64],
    boths: &mut [u64],
) -> Result<Compared, Refused>
    requires { WasRead first.now one }
    ensures { Compares first.now second.now (lists firsts.old seconds.old boths.old) (lists firsts.new seconds.new boths.new) result }
{
    let checked = reader::check(second)?;
    let arrangement = one.arrangement;
    if arrangement.north != checked.arrangement.north {
        return Err(Refused {
            refusal: 14,
            place: 0,
        });
    }
    if arrangement.south != checked.arrangement.south {
        return Err(Refused {
            refusal: 14,
            place: 0,
        });
    }
    let two = Read {
        arrangement: checked.arrangement,
        size: checked.size,
        body: checked.body,
    };
    list_both(first, second, one, two, firsts, seconds, boths)
}

// "ground only in the first, only in the second, and in both", of any bytes: the first text's 13, 10 or 9, then the second's, then 14, then 8.
pub fn compare(
    first: &[u8],
    second: &[u8],
    firsts: &mut [u64],
    seconds: &mut [u64],
    boths: &mut [u64],
) -> Result<Compared, Refused>
    ensures { Compares first.now second.now (lists firsts.old seconds.old boths.old) (lists firsts.new seconds.new boths.new) result }
{
    let checked = reader::check(first)?;
    let one = Read {
        arrangement: checked.arrangement,
        size: checked.size,
        body: checked.body,
    };
    compare_second(first, second, one, firsts, seconds, boths)
}
