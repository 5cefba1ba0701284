// The largest whole cells of a looser text: the codes of its whole cells, sorted, those inside others left out. Its proper text is what is written of them.
#![tactic(auto)]

ghost use Rattle.std.specs.Prelude.{◌≡◌, true, ◌++◌, ◌≤◌, length, take, drop};
ghost use Rattle.cell.specs.Cell.{IsArrangement};
ghost use Rattle.writing.specs.Write.{all_codes};
ghost use Rattle.sorting.specs.Sorted.{sorted};
ghost use Rattle.loose.specs.LooseText.{LooseBody};
ghost use Rattle.loose.specs.LooseScan.{loose_nodes};
ghost use Rattle.proper.specs.Thin.{thinned};
ghost use Rattle.proper.specs.Wholes.{loose_codes};

use cell::Arrangement;
use walk::Spot;

// Of rising codes, the first `count` of `codes`, those whose cells lie in no earlier one's, to the front; and how many they are.
fn thin(codes: &mut [u64], count: usize) -> usize
    requires { (count ≤ length codes.old) × (all_codes (take count codes.old) ≡ true) }
    ensures value { result ≡ length (thinned 0 (take count codes.old)) }
    ensures codes_after { codes.new ≡ thinned 0 (take count codes.old) ++ drop (length (thinned 0 (take count codes.old))) codes.old }
{
    let mut kept: usize = 0;
    let mut end: u64 = 0;
    let mut i: usize = 0;
    while i < count {
        let code = codes[i];
        i = i + 1;
        let start = code::start_in(code);
        if start < end {
            continue;
        }
        codes[kept] = code;
        kept = kept + 1;
        end = start + code::size_in(code);
    }
    kept
}

// The codes of a looser text's whole cells in an arrangement, in the order they stand, to the front of `codes`; and how many they are.
pub fn put_wholes(text: &[u8], arrangement: Arrangement, codes: &mut [u64]) -> usize
    requires { LooseBody (drop 7 text.now) (loose_nodes (drop 7 text.now)) × (7 ≤ length text.now) × (length (loose_codes arrangement text.now) ≤ length codes.old) × IsArrangement arrangement }
    ensures value { result ≡ length (loose_codes arrangement text.now) }
    ensures codes_after { codes.new ≡ loose_codes arrangement text.now ++ drop (length (loose_codes arrangement text.now)) codes.old }
{
    let mut spot = Spot {
        resolution: 0,
        number: 0,
        first: 0,
    };
    let mut count: usize = 0;
    let mut i: usize = 7;
    while i < text.len() {
        spot = spot.after(text[i]);
        let whole = walk::whole_at(text, i);
        i = i + 1;
        if !whole {
            continue;
        }
        codes[count] = code::code_as(arrangement, spot.resolution, spot.number);
        count = count + 1;
    }
    count
}

// The codes of the whole cells that lie in no other one, rising, to the front of `codes`; and how many they are. What `spare` holds afterwards is free.
pub fn put_largest(
    text: &[u8],
    arrangement: Arrangement,
    codes: &mut [u64],
    spare: &mut [u64],
) -> usize
    requires { LooseBody (drop 7 text.now) (loose_nodes (drop 7 text.now)) × (7 ≤ length text.now) × (length (loose_codes arrangement text.now) ≤ length codes.old) × (length codes.old ≤ length spare.old) × IsArrangement arrangement }
    ensures value { result ≡ length (thinned 0 (sorted (loose_codes arrangement text.now))) }
    ensures codes_after { take (length (thinned 0 (sorted (loose_codes arrangement text.now)))) codes.new ≡ thinned 0 (sorted (loose_codes arrangement text.now)) }
{
    let count = put_wholes(text, arrangement, codes);
    sorting::sort(&mut codes[..count], spare);
    thin(codes, count)
}
