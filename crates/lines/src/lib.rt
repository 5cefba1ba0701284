// The lines of an input, one at a time, in whatever parts its bytes come in.
#![tactic(auto)]

ghost use Rattle.std.specs.Prelude.{◌≡◌, ◌⊎◌, ◌++◌, ◌+◌, ◌-◌, ◌≤◌, length, take, drop};
ghost use Rattle.lines.specs.Find.{index_of};
ghost use Rattle.lines.specs.Next.{Hands};

// A line ended: so many bytes of it stand in the room, and the part goes on at `at`. Or the part is used up, and so many bytes of the line that
// has begun stand in the room.
#[derive(Clone, Copy)]
pub enum Reached {
    LineEnd { length: usize, at: usize },
    PartEnd { kept: usize },
}

fn least(a: usize, b: usize) -> usize
    ensures { (result ≤ a) × (result ≤ b) × ((result ≡ a) ⊎ (result ≡ b)) }
{
    if a < b { a } else { b }
}

// Puts the bytes of a part from `at` up to `end` behind those kept, as many as there is room for: no line that long says anything.
fn put(part: &[u8], at: usize, end: usize, room: &mut [u8], kept: usize) -> usize
    requires { (at ≤ end) × (end ≤ length part.now) × (kept ≤ length room.old) }
    ensures room_after { take result room.new ≡ take (length room.old) (take kept room.old ++ take (end - at) (drop at part.now)) }
    ensures upper_bound { (result ≤ length room.old) × (length room.new ≡ length room.old) }
{
    let count = least(end - at, room.len() - kept);
    room[kept..kept + count].copy_from_slice(&part[at..at + count]);
    kept + count
}

// Where a byte stands first in a part, from `at` on; the part's end where it does not.
fn find(part: &[u8], at: usize, byte: u8) -> usize
    requires { at ≤ length part.now }
    ensures place { result ≡ at + index_of byte (drop at part.now) }
    ensures upper_bound { result ≤ length part.now }
{
    for i in at..part.len() {
        if part[i] == byte {
            return i;
        }
    }
    part.len()
}

// The rest of the line at hand, from `at` on in a part; `kept` bytes of it came before and stand in the room.
pub fn next(part: &[u8], at: usize, room: &mut [u8], kept: usize) -> Reached
    requires { (at ≤ length part.now) × (kept ≤ length room.old) }
    ensures { Hands (drop at part.now) (take kept room.old) part.now room.new result }
{
    let end = find(part, at, b'\n');
    let length = put(part, at, end, room, kept);
    if end == part.len() {
        return Reached::PartEnd { kept: length };
    }
    Reached::LineEnd {
        length,
        at: end + 1,
    }
}
