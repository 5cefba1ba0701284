// The plane: the square, the nucleus and the vertices of a cell, and the cell of a point. Computed in unsigned numbers: how far a point is right of
// the left edge of O, and how deep below the top of N.
#![tactic(auto)]

ghost use Rattle.std.specs.Prelude.{◌≡◌, ◌+◌, ◌*◌, ◌≤◌, ◌<◌, ◌^◌};
ghost use Rattle.cell.specs.Cell.{IsCell, IsArrangement, found};
ghost use Rattle.plane.specs.Plane.{face_side, side_of, face_left, cell_at, square_of, nucleus_of, vertices_of, point_refusal, point_cell};
ghost use Rattle.plane.specs.Internal.Depth.{depth_below, face_depth, left_in, depth_in, row_at, found_on_cap, found_on_belt, found_at};

use cell::{Arrangement, Cell};

// M, the side of a face.
const FACE: u64 = 28_697_814;

// 2M, the depth of the top edge of S.
const SOUTH: u64 = 57_395_628;

// 3M/2, the height of the top of N above the equator.
const TOP: u64 = 43_046_721;

// A cell's left and top edge, and the length of its sides.
#[derive(Clone, Copy)]
pub struct Square {
    pub left: i64,
    pub top: i64,
    pub side: i64,
}

#[derive(Clone, Copy)]
pub struct Point {
    pub x: i64,
    pub y: i64,
}

// Top left, top right, bottom right, bottom left.
#[derive(Clone, Copy)]
pub struct Vertices {
    pub x: [i64; 4],
    pub y: [i64; 4],
}

// The side of a cell.
fn side_of(resolution: u64) -> u64
    requires { resolution ≤ 15 }
    ensures { result ≡ side_of resolution }
{
    2 * ternary::power(15 - resolution)
}

// The left edge of a face.
fn face_left(arrangement: Arrangement, face: u64) -> u64
    requires arrangement { IsArrangement arrangement }
    requires face_bound { face ≤ 5 }
    ensures { result ≡ face_left arrangement face }
{
    if face < 1 {
        return arrangement.north * FACE;
    }
    if face < 5 {
        return (face - 1) * FACE;
    }
    arrangement.south * FACE
}

// The depth of the top edge of a face.
fn face_depth(face: u64) -> u64
    ensures { result ≡ face_depth face }
{
    if face < 1 {
        return 0;
    }
    if face < 5 {
        return FACE;
    }
    SOUTH
}

// The edge before the cell of that row or column, on a face that starts at `start`.
fn edge_at(start: u64, resolution: u64, index: u64) -> u64
    requires start_bound { start ≤ 3 * face_side }
    requires resolution_bound { resolution ≤ 15 }
    requires index_bound { index < 3 ^ resolution }
    ensures { result ≡ start + index * side_of resolution }
{
    start + index * side_of(resolution)
}

// The left edge of a cell.
fn left_in(arrangement: Arrangement, cell: Cell) -> u64
    requires arrangement { IsArrangement arrangement }
    requires cell { IsCell cell }
    ensures { result ≡ left_in arrangement cell }
{
    edge_at(
        face_left(arrangement, cell.face),
        cell.resolution,
        cell.column,
    )
}

// The depth of the top edge of a cell.
fn depth_in(cell: Cell) -> u64
    requires { IsCell cell }
    ensures { result ≡ depth_in cell }
{
    edge_at(face_depth(cell.face), cell.resolution, cell.row)
}

// The square that a cell is in the plane.
pub fn square_of(arrangement: Arrangement, cell: Cell) -> Square
    requires arrangement { IsArrangement arrangement }
    requires cell { IsCell cell }
    ensures { result ≡ square_of arrangement cell }
{
    Square {
        left: signed::as_signed(left_in(arrangement, cell)),
        top: signed::difference(TOP, depth_in(cell)),
        side: signed::as_signed(side_of(cell.resolution)),
    }
}

// The middle of a cell.
pub fn nucleus_of(arrangement: Arrangement, cell: Cell) -> Point
    requires arrangement { IsArrangement arrangement }
    requires cell { IsCell cell }
    ensures { result ≡ nucleus_of arrangement cell }
{
    let half = ternary::power(15 - cell.resolution);
    Point {
        x: signed::as_signed(left_in(arrangement, cell) + half),
        y: signed::difference(TOP, depth_in(cell) + half),
    }
}

// The corners of a cell, whether owned or not.
pub fn vertices_of(arrangement: Arrangement, cell: Cell) -> Vertices
    requires arrangement { IsArrangement arrangement }
    requires cell { IsCell cell }
    ensures { result ≡ vertices_of arrangement cell }
{
    let side = side_of(cell.resolution);
    let x = left_in(arrangement, cell);
    let depth = depth_in(cell);
    let left = signed::as_signed(x);
    let right = signed::as_signed(x + side);
    let top = signed::difference(TOP, depth);
    let bottom = signed::difference(TOP, depth + side);
    Vertices {
        x: [left, right, right, left],
        y: [top, top, bottom, bottom],
    }
}

// How deep a point lies below the top of N; 0 above it.
fn depth_below(y: i64) -> u64
    ensures { result ≡ depth_below y }
{
    let size = signed::magnitude(y);
    if signed::is_negative(y) {
        return TOP + size;
    }
    if size > TOP {
        return 0;
    }
    TOP - size
}

// The row by the distance from the face's top edge. The bottom edge is in the last row.
fn row_at(resolution: u64, down: u64) -> u64
    requires { resolution ≤ 15 }
    ensures { result ≡ row_at resolution down }
{
    if down == FACE {
        return ternary::power(resolution) - 1;
    }
    down / side_of(resolution)
}

// The cell of a face, by the distances from its left and its top edge.
fn cell_at(face: u64, resolution: u64, right: u64, down: u64) -> Cell
    requires { resolution ≤ 15 }
    ensures { result ≡ cell_at face resolution right down }
{
    Cell {
        face: face,
        resolution: resolution,
        row: row_at(resolution, down),
        column: right / side_of(resolution),
    }
}

// The cell of N or S, whose left edge is `left`, or 7. The outer edges are not owned.
fn cell_on_cap(face: u64, resolution: u64, left: u64, right: u64, down: u64) -> Result<Cell, u64>
    requires resolution_bound { resolution ≤ 15 }
    requires left_bound { left ≤ 3 * face_side }
    ensures { result ≡ found_on_cap face resolution left right down }
{
    if right <= left {
        return Err(7);
    }
    if right >= left + FACE {
        return Err(7);
    }
    if down < 1 {
        return Err(7);
    }
    if down >= FACE {
        return Err(7);
    }
    Ok(cell_at(face, resolution, right - left, down))
}

// The cell of O to R, or 7.
fn cell_on_belt(resolution: u64, right: u64, down: u64) -> Result<Cell, u64>
    requires { resolution ≤ 15 }
    ensures { result ≡ found_on_belt resolution right down }
{
    if right >= 4 * FACE {
        return Err(7);
    }
    Ok(cell_at(1 + right / FACE, resolution, right % FACE, down))
}

// The cell of a point so far right and so deep, or 7.
fn cell_at_depth(
    arrangement: Arrangement,
    resolution: u64,
    right: u64,
    depth: u64,
) -> Result<Cell, u64>
    requires arrangement { IsArrangement arrangement }
    requires resolution_bound { resolution ≤ 15 }
    ensures { result ≡ found_at arrangement resolution right depth }
{
    if depth < FACE {
        return cell_on_cap(0, resolution, arrangement.north * FACE, right, depth);
    }
    if depth <= SOUTH {
        return cell_on_belt(resolution, right, depth - FACE);
    }
    cell_on_cap(
        5,
        resolution,
        arrangement.south * FACE,
        right,
        depth - SOUTH,
    )
}

// The cell of that resolution that owns a point, or the refusal.
pub fn point_cell(arrangement: Arrangement, resolution: u64, x: i64, y: i64) -> Result<Cell, u64>
    ensures { result ≡ found (point_refusal arrangement resolution x y) (point_cell arrangement resolution x y) }
{
    let refusal = arrangement.refusal();
    if refusal != 0 {
        return Err(refusal);
    }
    if resolution > 15 {
        return Err(2);
    }
    if signed::is_negative(x) {
        return Err(7);
    }
    cell_at_depth(
        arrangement,
        resolution,
        signed::magnitude(x),
        depth_below(y),
    )
}
