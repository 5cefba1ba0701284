// Marks and frames for the plotter, in metres.
#![tactic(auto)]

ghost use Rattle.std.specs.Prelude.{◌≡◌, true, Ok};
ghost use Rattle.std.specs.Float.Ieee.{is_nan};
ghost use Rattle.cell.specs.Cell.{IsCell, IsArrangement};
ghost use Rattle.plotter.specs.Plotter.{mark_of_point, box_of, mark_of_code, first_frame, lower, higher, grown, has_nan, grown_frame, grown_by, as_around, frame_around};

use cell::{Arrangement, Cell};

// "either a point in metres, a box with its four edges, or nothing with the refusal": x and y; left, bottom, right and top.
#[derive(Clone, Copy)]
pub enum Mark {
    Point(f64, f64),
    Box(f64, f64, f64, f64),
    Nothing(u64),
}

// Four edges in metres.
#[repr(C)]
#[derive(Clone, Copy)]
pub struct Frame {
    pub left: f64,
    pub bottom: f64,
    pub right: f64,
    pub top: f64,
}

// The frame around some cells: none where there are no cells.
#[derive(Clone, Copy)]
pub enum Around {
    Edges(Frame),
    Nothing,
    Refused(u64),
}

// A planar point: 19 of the side, then 5 and 7.
pub fn mark_point(side: f64, arrangement: Arrangement, x: i64, y: i64) -> Mark
    ensures { result ≡ mark_of_point side arrangement x y }
{
    if !metres::is_side(side) {
        return Mark::Nothing(19); // before 5 and 7
    }
    match plane::point_cell(arrangement, 0, x, y) {
        Ok(_) => Mark::Point(metres::metres_of(x, side), metres::metres_of(y, side)),
        Err(refusal) => Mark::Nothing(refusal),
    }
}

// The four edges of a cell's square.
fn box_of(side: f64, arrangement: Arrangement, cell: Cell) -> Frame
    requires arrangement { IsArrangement arrangement }
    requires cell { IsCell cell }
    ensures { result ≡ box_of side arrangement cell }
{
    let vertices = plane::vertices_of(arrangement, cell);
    let x = vertices.x;
    let y = vertices.y;
    Frame {
        left: metres::metres_of(x[0], side),
        bottom: metres::metres_of(y[2], side),
        right: metres::metres_of(x[1], side),
        top: metres::metres_of(y[0], side),
    }
}

// The box of a code's cell: 19 of the side, then 4.
pub fn frame_first(side: f64, code: u64) -> Result<Frame, u64>
    ensures { result ≡ first_frame side code }
{
    if !metres::is_side(side) {
        return Err(19); // before 4
    }
    match code::cell_of(code) {
        Ok(cell) => Ok(box_of(side, code::arrangement_of(code), cell)),
        Err(refusal) => Err(refusal), // 4
    }
}

// The same as a mark.
pub fn mark_code(side: f64, code: u64) -> Mark
    ensures { result ≡ mark_of_code side code }
{
    match frame_first(side, code) {
        Ok(frame) => Mark::Box(frame.left, frame.bottom, frame.right, frame.top),
        Err(refusal) => Mark::Nothing(refusal),
    }
}

// A value is not a number where it differs from itself.
fn is_nan(value: f64) -> bool
    ensures { result ≡ is_nan value }
{
    value != value
}

fn lower_of(own: f64, other: f64) -> f64
    ensures { result ≡ lower own other }
{
    if other < own { other } else { own }
}

fn higher_of(own: f64, other: f64) -> f64
    ensures { result ≡ higher own other }
{
    if own < other { other } else { own }
}

impl Frame {
    fn has_nan(self) -> bool
        ensures { result ≡ has_nan self }
    {
        if is_nan(self.left) {
            return true;
        }
        if is_nan(self.bottom) {
            return true;
        }
        if is_nan(self.right) {
            return true;
        }
        is_nan(self.top)
    }

    // "each edge becomes the one further out, on a tie the frame's"
    pub fn grown(self, other: Frame) -> Frame
        ensures { result ≡ grown self other }
    {
        Frame {
            left: lower_of(self.left, other.left),
            bottom: lower_of(self.bottom, other.bottom),
            right: higher_of(self.right, other.right),
            top: higher_of(self.top, other.top),
        }
    }
}

// A frame and the box of a further code's cell: 19 of the side or the frame, then 4.
pub fn frame_grow(side: f64, frame: Frame, code: u64) -> Result<Frame, u64>
    ensures { result ≡ grown_frame side frame code }
{
    if !metres::is_side(side) {
        return Err(19); // of the side
    }
    if frame.has_nan() {
        return Err(19); // an edge that is not a number
    }
    match frame_first(side, code) {
        Ok(other) => Ok(frame.grown(other)),
        Err(refusal) => Err(refusal),
    }
}

// A frame that grows by each of these codes.
fn grow_by(side: f64, first: Frame, codes: &[u64]) -> Around
    ensures { result ≡ as_around (grown_by side (Ok first) codes.now) }
{
    let mut frame = first;
    for code in codes {
        match frame_grow(side, frame, *code) {
            Ok(next) => frame = next,
            Err(refusal) => return Around::Refused(refusal),
        }
    }
    Around::Edges(frame)
}

// The frame that holds the box of each code's cell: 19 of the side, then 4.
pub fn frame_around(side: f64, codes: &[u64]) -> Around
    ensures { result ≡ frame_around side codes.now }
{
    if codes.len() == 0 {
        if metres::is_side(side) {
            return Around::Nothing;
        }
        return Around::Refused(19); // of the side, though there is no cell
    }
    match frame_first(side, codes[0]) {
        Ok(first) => grow_by(side, first, &codes[1..]),
        Err(refusal) => Around::Refused(refusal),
    }
}
