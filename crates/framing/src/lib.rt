// What `coverage frame` reads and prints: the face side as people write it, and a frame's edges.
#![tactic(auto)]

ghost use Rattle.std.specs.Prelude.{◌≡◌, false, [], ◌∷◌, ◌++◌, ◌+◌, ◌≤◌, length};
ghost use Rattle.std.specs.Float.Ieee.{is_nan};
ghost use Rattle.logic.specs.Refusal.{given};
ghost use Rattle.reader.specs.Check.{place_with};
ghost use Rattle.listing.specs.List.{codes_in};
ghost use Rattle.plotter.specs.Plotter.{has_nan};
ghost use Rattle.report.specs.Put.{Put};
ghost use Rattle.framing.specs.Framing.{side_in, hexadecimal, edges_line, around_line, Numbers, frame_refusal, frame_line};

use plotter::{Around, Frame};
use reading::Refused;

// The side that some bytes write, one quotient of two whole numbers; 0, which is no side, where they write none.
pub fn side_in(text: &[u8]) -> f64
    ensures { result ≡ side_in text.now }
{
    match decimal::fraction_in(text) {
        Some((number, scale)) => (number as f64) / (scale as f64),
        None => 0.0,
    }
}

// Puts the sixteen hexadecimal digits of an edge's bits and a byte after them from `at` on: where they end.
fn put_edge(edge: f64, byte: u8, out: &mut [u8], at: usize) -> usize
    requires edge_value { is_nan edge ≡ false }
    requires at_in_bounds { at + 17 ≤ length out.old }
    ensures put { Put at (hexadecimal edge ++ (byte ∷ [])) out.old out.new result }
    ensures value { result ≡ at + 17 }
{
    let mut digits = [0u8; 16];
    let count = io::hex(f64::to_bits(edge), 16, &mut digits);
    let end = at + copying::copy(&digits[..count], &mut out[at..]);
    out[end] = byte;
    end + 1
}

// Puts four edges in one line, in front: where it ends.
fn put_edges(frame: Frame, out: &mut [u8]) -> usize
    requires frame_value { has_nan frame ≡ false }
    requires in_bounds { 68 ≤ length out.old }
    ensures put { Put 0 (edges_line frame) out.old out.new result }
    ensures value { result ≡ 68 }
{
    let second = put_edge(frame.left, b' ', out, 0);
    let third = put_edge(frame.bottom, b' ', out, second);
    let fourth = put_edge(frame.right, b' ', out, third);
    put_edge(frame.top, b'\n', out, fourth)
}

// Puts the frame around some cells in one line, nothing where there is none, or the refusal number: where it ends.
pub fn put_around(around: Around, out: &mut [u8]) -> usize
    requires numbers { Numbers around }
    requires in_bounds { 68 ≤ length out.old }
    ensures put { Put 0 (around_line around) out.old out.new result }
    ensures upper_bound { result ≤ 68 }
{
    match around {
        Around::Edges(frame) => put_edges(frame, out),
        Around::Nothing => 0,
        Around::Refused(refusal) => report::put_line(refusal, out),
    }
}

// Where a line ends; and its refusal, 0 for none, with the place.
#[derive(Clone, Copy)]
pub struct LinePut {
    pub end: usize,
    pub refusal: u64,
    pub place: u64,
}

// Puts the frame around a text's whole cells in one line, nothing where there is none, or the refusal number. The side is tested first.
pub fn put_frame(text: &[u8], word: &[u8], codes: &mut [u64], out: &mut [u8]) -> LinePut
    requires { 68 ≤ length out.old }
    ensures put { Put 0 (frame_line (side_in word.now) text.now (length codes.old)) out.old out.new result.end }
    ensures refusal_value { result.refusal ≡ frame_refusal (side_in word.now) text.now (length codes.old) }
    ensures place_value { result.place ≡ place_with result.refusal text.now }
    ensures codes_after { codes.new ≡ given result.refusal (codes_in text.now codes.old) codes.old }
    ensures end_bound { result.end ≤ 68 }
{
    let side = side_in(word);
    if !metres::is_side(side) {
        return LinePut {
            end: report::put_line(19, out),
            refusal: 19, // of the side
            place: 0,
        };
    }
    match listing::list(text, codes) {
        Ok(count) => LinePut {
            end: put_around(plotter::frame_around(side, &codes[..count as usize]), out),
            refusal: 0,
            place: 0,
        },
        Err(Refused { refusal, place }) => LinePut {
            end: report::put_line(refusal, out),
            refusal,
            place,
        },
    }
}
