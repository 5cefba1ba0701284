// The codes of a text's whole cells.
#![tactic(auto)]

ghost use Rattle.std.specs.Prelude.{◌≡◌, true, ◌++◌, ◌≤◌, length, drop};
ghost use Rattle.reading.specs.TextReading.{is_text, text_arrangement, body_start};
ghost use Rattle.logic.specs.Refusal.{given};
ghost use Rattle.listing.specs.List.{codes_of, codes_in, listing_refusal, listed};

use cell::Arrangement;
use reader::Checked;
use reading::Refused;
use walk::Spot;

// "the codes of the whole cells in rising order", in the heading's arrangement, to the front of `codes`. The text's body starts at `body`.
// A letter or digit and its `(` are gone over in one turn.
fn put_codes(text: &[u8], arrangement: Arrangement, body: usize, codes: &mut [u64])
    requires { (is_text text.now ≡ true) × (arrangement ≡ text_arrangement text.now) × (body ≡ body_start text.now) × (length (codes_of text.now) ≤ length codes.old) }
    ensures { codes.new ≡ codes_of text.now ++ drop (length (codes_of text.now)) codes.old }
{
    let mut spot = Spot {
        resolution: 0,
        number: 0,
        first: 0,
    };
    let mut count: usize = 0;
    let mut i: usize = body;
    // by hand: a turn takes one byte or two
    while i < text.len() {
        spot = spot.after(text[i]);
        let whole = walk::whole_at(text, i);
        i = i + 1;
        if whole {
            codes[count] = code::code_as(arrangement, spot.resolution, spot.number);
            count = count + 1;
            continue;
        }
        if reading::opens_at(text, i) {
            spot = spot.after(b'(');
            i = i + 1;
        }
    }
}

// The codes of any bytes' whole cells: 13, 10, 9 where they are no text, 8 where the room is shorter than the list.
pub fn list(text: &[u8], codes: &mut [u64]) -> Result<u64, Refused>
    ensures value { result ≡ listed (listing_refusal text.now (length codes.old)) text.now }
    ensures codes_after { codes.new ≡ given (listing_refusal text.now (length codes.old)) (codes_in text.now codes.old) codes.old }
{
    let checked = reader::check(text)?;
    let cells = checked.cells;
    if (codes.len() as u64) < cells {
        return Err(Refused {
            refusal: 8,
            place: 0,
        });
    }
    let arrangement = checked.arrangement;
    put_codes(text, arrangement, checked.body, codes);
    Ok(cells)
}
