// The code of a fix's cell (01 "From a fix to a cell"). Computed in unsigned numbers: how far east of -1,800,000,000, and z by its sign and size. Row and
// column are found as parts of a face, of 2^56, from which their digits are woven; the cell itself is found only where a part leaves a digit open.
#![tactic(auto)]

ghost use Rattle.std.specs.Prelude.{◌≡◌, true, false, cond, ◌+◌, ◌-◌, ◌*◌, ◌/◌, ◌%◌, ◌^◌, ◌≤◌, ◌<◌, pos, neg_ℤ, nat_abs, ◌+ℤ◌};
ghost use Rattle.std.proofs.Math.IntN.{sub_ℕ};
ghost use Rattle.std.specs.Int.Signed.{le_z};
ghost use Rattle.ternary.specs.Weave.{weave};
ghost use Rattle.cell.specs.Cell.{IsArrangement, found};
ghost use Rattle.cell.specs.Neighbour.{turn_of};
ghost use Rattle.code.specs.Code.{code_at, code_of, found_code};
ghost use Rattle.root.specs.Floor.{axis_of};
ghost use Rattle.locate.specs.Fix.{quarter, in_range, east_of, is_belt, offset_of, belt_cell, cap_cell, fix_cell, fix_refusal};
ghost use Rattle.locate.specs.Fix.{turned_north};
ghost use Rattle.locate.specs.Internal.End.{Stands, turned_end};
ghost use Rattle.locate.specs.Internal.Place.{arranged};
ghost use Rattle.locate.specs.Internal.Parts.{place_at, east_part};

use cell::{Arrangement, Cell};
use code::FACE_SIZE;
use root::Axis;
use ternary::FINEST_ROWS;

// A quarter turn of longitude, the width of a face of O to R.
const QUARTER: u64 = 900_000_000;

const FULL_TURN: u64 = 3_600_000_000;

// 4 x 10^18 / 3^15 rounded up, and what 3^15 times that is more than 4 x 10^18.
const STEP: u64 = 278_766_877_506;

const OVER: u64 = 13_985_942;

// 2^56, the whole of which a part is taken.
const WHOLE: u64 = 72_057_594_037_927_936;

// 2^88 / QUARTER, rounded up.
const BY_QUARTER: u64 = 343_872_233_134_827_855;

// 2^120 / (4 x 10^18), rounded down, and the room that a part by it has to leave.
const BY_BELT: u64 = 332_306_998_946_228_968;

const BELT_ROOM: u64 = 14_349_345;

// A point of a cap, in multiples of h / 1,800,000,000.
#[derive(Clone, Copy)]
struct End {
    p: Axis,
    q: Axis,
}

// A longitude from -1,800,000,000 to 1,800,000,000 (02, W-201), and z from -10^18 to 10^18.
fn in_range(longitude: i64, z: i64) -> bool
    ensures { result ≡ in_range longitude z }
{
    if signed::at_most(-1_800_000_000, longitude) {
        if signed::at_most(longitude, 1_800_000_000) {
            if signed::at_most(-1_000_000_000_000_000_000, z) {
                return signed::at_most(z, 1_000_000_000_000_000_000);
            }
        }
    }
    false
}

// "Belt, 3|z| <= 2 x 10^18".
pub fn in_belt(z: i64) -> bool
    ensures { result ≡ is_belt z }
{
    if signed::at_most(-666_666_666_666_666_666, z) {
        return signed::at_most(z, 666_666_666_666_666_666);
    }
    false
}

// 2 x 10^18 - 3z, in the belt. By how far z is above the belt's bottom it takes no sign.
fn offset(z: i64) -> u64
    requires { is_belt z ≡ true }
    ensures { result ≡ offset_of z }
{
    let up = signed::shifted(z, 666_666_666_666_666_666);
    3_999_999_999_999_999_998 - 3 * up
}

// The row at resolution 15. By STEP it is found or is one too small: the rest says which.
fn finest_row(offset: u64) -> u64
    requires { offset < 4 * 10 ^ 18 }
    ensures { result ≡ 3 ^ 15 * offset / (4 * 10 ^ 18) }
{
    let whole = offset / STEP;
    let rest = FINEST_ROWS * (offset % STEP) + OVER * whole;
    if rest < 4_000_000_000_000_000_000 {
        whole
    } else {
        whole + 1
    }
}

// The row floor(m offset / (4 x 10^18)): the first digits of that at resolution 15.
fn belt_row(resolution: u64, m: u64, offset: u64) -> u64
    requires resolution_bound { resolution ≤ 15 }
    requires m_value { m ≡ 3 ^ resolution }
    requires offset_bound { offset < 4 * 10 ^ 18 }
    ensures { result ≡ 3 ^ resolution * offset / (4 * 10 ^ 18) }
{
    let row = finest_row(offset);
    if resolution < 15 {
        return row * m / FINEST_ROWS;
    }
    row
}

// "face c of O to R, column floor(a m / 900,000,000), row floor(m (2 x 10^18 - 3z) / (4 x 10^18))"
fn belt(resolution: u64, m: u64, east: u64, offset: u64) -> Cell
    requires resolution_bound { resolution ≤ 15 }
    requires m_value { m ≡ 3 ^ resolution }
    requires east_bound { east < 3600000000 }
    requires offset_bound { offset < 4 * 10 ^ 18 }
    ensures { result ≡ belt_cell resolution east offset }
{
    Cell {
        face: 1 + east / QUARTER,
        resolution,
        row: belt_row(resolution, m, offset),
        column: east % QUARTER * m / QUARTER,
    }
}

// t h, the first number of a start.
fn across(a: u64) -> Axis
    requires { a < quarter }
    ensures { (axis_of result ≡ sub_ℕ (2 * a) quarter) × (result.size ≤ quarter) }
{
    if 2 * a < QUARTER {
        return Axis {
            minus: true,
            size: QUARTER - 2 * a,
        };
    }
    Axis {
        minus: false,
        size: 2 * a - QUARTER,
    }
}

// x or y. A turn and a sign are as good as random, so that a jump would be guessed wrong half of the time: they choose numbers, not ways.
fn chosen(first: bool, x: Axis, y: Axis) -> Axis
    ensures { result ≡ cond first x y }
{
    if first { x } else { y }
}

// -x or x.
fn flipped(flip: bool, x: Axis) -> Axis
    ensures { (axis_of result ≡ cond flip (neg_ℤ (axis_of x)) (axis_of x)) × (result.size ≡ x.size) }
{
    let minus = x.minus;
    Axis {
        minus: minus != flip,
        size: x.size,
    }
}

// So many turns by (u, v) -> (-v, u): an odd number changes u and v over, and each of the two then has its sign.
fn turned(turns: u64, u: Axis, v: Axis) -> End
    requires turns_bound { turns < 4 }
    requires size_le_quarter { u.size ≤ quarter }
    requires size_le_quarter_2 { v.size ≤ quarter }
    ensures { Stands (turned_north turns (axis_of u, axis_of v)) result }
{
    let odd = turns % 2 == 1;
    let late = turns > 1;
    End {
        p: flipped(odd != late, chosen(odd, v, u)),
        q: flipped(late, chosen(odd, u, v)),
    }
}

// "Turn (c - n) mod 4 times by (u, v) -> (-v, u)"; in the south "turns (c - s) mod 4 by (u, v) -> (v, -u)": these lead back, so they are
// (s - c) mod 4 turns of the north.
fn turns_of(arrangement: Arrangement, south: bool, c: u64) -> u64
    requires arrangement { IsArrangement arrangement }
    requires c_bound { c ≤ 3 }
    ensures { (result < 4) × (result ≡ cond south ((arrangement.south + 4 - c) % 4) (turn_of c arrangement.north)) }
{
    if south {
        return (arrangement.south + 4 - c) % 4;
    }
    (c + 4 - arrangement.north) % 4
}

// "Start at (u, v) = (t h, -h/2)", in the south "a start of (t h, +h/2)", turned.
fn end_of(arrangement: Arrangement, south: bool, east: u64) -> End
    requires arrangement { IsArrangement arrangement }
    requires east_bound { east < 3600000000 }
    ensures { Stands (turned_end arrangement south east) result }
{
    let v = Axis {
        minus: !south,
        size: QUARTER,
    };
    let turns = turns_of(arrangement, south, east / QUARTER);
    turned(turns, across(east % QUARTER), v)
}

// "face S", "face N".
fn cap_face(south: bool) -> u64
    ensures { result ≡ cond south 5 0 }
{
    if south { 5 } else { 0 }
}

// "For the end (p, q): column floor(m (1/2 + p)), row floor(m (1/2 - q))", by (10^9 h)^2 and its whole root.
fn cap(face: u64, resolution: u64, m: u64, height: u64, root: u64, end: End) -> Cell
    requires resolution_bound { resolution ≤ 15 }
    requires m_value { m ≡ 3 ^ resolution }
    requires height_bound { height < 10 ^ 18 }
    requires root_bound { (root * root ≤ height) × (height < (root + 1) * (root + 1)) }
    requires size_le_quarter { end.p.size ≤ quarter }
    requires size_le_quarter_2 { end.q.size ≤ quarter }
    ensures { result ≡ cap_cell face resolution height (axis_of end.p, axis_of end.q) }
{
    let q = root::negated(end.q);
    Cell {
        face,
        resolution,
        row: root::floor(resolution, m, height, root, q),
        column: root::floor(resolution, m, height, root, end.p),
    }
}

// The code of a face, a resolution, and how far down and how far right on the face a point lies, in parts: the first digits of the finest path.
fn coarse_code(arrangement: Arrangement, face: u64, resolution: u64, row: u64, column: u64) -> u64
    requires arrangement { IsArrangement arrangement }
    requires face_bound { (face ≤ 5) × (resolution ≤ 15) × (row < 2 ^ 56) × (column < 2 ^ 56) }
    ensures { result ≡ code_at arrangement face resolution (weave resolution (place_at resolution row) (place_at resolution column)) }
{
    let step = ternary::nine_power(15 - resolution);
    let ending = code::ending(arrangement, resolution);
    let finest = code::code_by(ending, 0, row, column);
    let cut = finest / 256 % step;
    finest - 256 * cut + face * (FACE_SIZE * 256)
}

// The same: of the finest resolution it is that path.
fn part_code(arrangement: Arrangement, face: u64, resolution: u64, row: u64, column: u64) -> u64
    requires arrangement { IsArrangement arrangement }
    requires face_bound { (face ≤ 5) × (resolution ≤ 15) × (row < 2 ^ 56) × (column < 2 ^ 56) }
    ensures { result ≡ code_at arrangement face resolution (weave resolution (place_at resolution row) (place_at resolution column)) }
{
    if resolution < 15 {
        return coarse_code(arrangement, face, resolution, row, column);
    }
    let ending = code::ending(arrangement, 15);
    code::code_by(ending, face, row, column)
}

// How far east a place lies, in parts of a quarter turn. It is rounded up, by less than any column's edge is away, since an edge itself may lie between two parts.
fn east_part(east: u64) -> u64
    requires { east ≤ 3600000000 }
    ensures { result ≡ east_part east }
{
    wide::high(east * 4_294_967_296, BY_QUARTER) + 1
}

// The code of a place in the belt. A full turn is taken off the face, which is known before the column is woven.
fn belt_code(arrangement: Arrangement, resolution: u64, east: u64, offset: u64) -> u64
    requires arrangement { IsArrangement arrangement }
    requires resolution_bound { resolution ≤ 15 }
    requires east_bound { east ≤ 3600000000 }
    requires offset_bound { offset < 4 * 10 ^ 18 }
    ensures { result ≡ code_of arrangement (belt_cell resolution (east % 3600000000) offset) }
{
    let row = wide::high(offset, BY_BELT);
    if root::is_firm(row, BELT_ROOM) {
        let column = east_part(east);
        let face = 1 + column / WHOLE % 4;
        return part_code(arrangement, face, resolution, row, column % WHOLE);
    }
    let m = ternary::power(resolution);
    code::code_of(arrangement, belt(resolution, m, east % FULL_TURN, offset))
}

// The code of a place in a cap.
fn cap_code(arrangement: Arrangement, face: u64, resolution: u64, height: u64, end: End) -> u64
    requires arrangement { IsArrangement arrangement }
    requires face_bound { face ≤ 5 }
    requires resolution_bound { resolution ≤ 15 }
    requires height_bound { height < 10 ^ 18 }
    requires size_le_quarter { end.p.size ≤ quarter }
    requires size_le_quarter_2 { end.q.size ≤ quarter }
    ensures { result ≡ code_of arrangement (cap_cell face resolution height (axis_of end.p, axis_of end.q)) }
{
    let root = root::whole_root(height);
    let down = root::negated(end.q);
    let row = root::part(root, down);
    if root::is_firm(row, root::ROOM) {
        let column = root::part(root, end.p);
        if root::is_firm(column, root::ROOM) {
            return part_code(arrangement, face, resolution, row, column);
        }
    }
    let m = ternary::power(resolution);
    code::code_of(arrangement, cap(face, resolution, m, height, root, end))
}

// How far east of -1,800,000,000 a longitude lies: 1,800,000,000 is a full turn, and the same place.
fn east_of(longitude: i64) -> u64
    requires longitude_value { le_z (neg_ℤ (pos 1800000000)) longitude ≡ true }
    requires pos_bound { nat_abs (longitude +ℤ pos 1800000000) ≤ 3600000000 }
    ensures { (result ≡ east_of longitude) × (result < 3600000000) }
{
    let east = signed::shifted(longitude, 1_800_000_000);
    if east < FULL_TURN {
        return east;
    }
    east - FULL_TURN
}

// The code of a fix in the belt. The arrangement is two numbers, which stay in registers.
pub fn belt_fix(n: u64, s: u64, resolution: u64, longitude: i64, z: i64) -> u64
    requires arrangement { IsArrangement (arranged n s) }
    requires resolution_bound { resolution ≤ 15 }
    requires z_value { in_range longitude z ≡ true }
    requires z_value_2 { is_belt z ≡ true }
    ensures { result ≡ code_of (arranged n s) (fix_cell (arranged n s) resolution longitude z) }
{
    let arrangement = Arrangement { north: n, south: s };
    let east = signed::shifted(longitude, 1_800_000_000);
    belt_code(arrangement, resolution, east, offset(z))
}

// The code of a fix in a cap, likewise.
pub fn cap_fix(n: u64, s: u64, resolution: u64, longitude: i64, z: i64) -> u64
    requires arrangement { IsArrangement (arranged n s) }
    requires resolution_bound { resolution ≤ 15 }
    requires z_value { in_range longitude z ≡ true }
    requires z_value_2 { is_belt z ≡ false }
    ensures { result ≡ code_of (arranged n s) (fix_cell (arranged n s) resolution longitude z) }
{
    let arrangement = Arrangement { north: n, south: s };
    let east = east_of(longitude);
    let size = signed::magnitude(z);
    let south = signed::is_negative(z);
    let height = 3 * (1_000_000_000_000_000_000 - size);
    let end = end_of(arrangement, south, east);
    cap_code(arrangement, cap_face(south), resolution, height, end)
}

// The code of a fix in range.
fn fix_code(arrangement: Arrangement, resolution: u64, longitude: i64, z: i64) -> u64
    requires arrangement { IsArrangement arrangement }
    requires resolution_bound { resolution ≤ 15 }
    requires z_value { in_range longitude z ≡ true }
    ensures { result ≡ code_of arrangement (fix_cell arrangement resolution longitude z) }
{
    if in_belt(z) {
        return belt_fix(
            arrangement.north,
            arrangement.south,
            resolution,
            longitude,
            z,
        );
    }
    cap_fix(
        arrangement.north,
        arrangement.south,
        resolution,
        longitude,
        z,
    )
}

// Why a fix is refused: 0 where it is not.
pub fn fix_refusal(arrangement: Arrangement, resolution: u64, longitude: i64, z: i64) -> u64
    ensures { result ≡ fix_refusal arrangement resolution longitude z }
{
    let refusal = arrangement.refusal();
    if refusal != 0 {
        return refusal;
    }
    if resolution > 15 {
        return 2;
    }
    if in_range(longitude, z) {
        return 0;
    }
    6
}

// The code of the cell of that resolution in which a fix lies, or the refusal.
pub fn coded_fix(
    arrangement: Arrangement,
    resolution: u64,
    longitude: i64,
    z: i64,
) -> Result<u64, u64>
    ensures { result ≡ found_code arrangement (found (fix_refusal arrangement resolution longitude z) (fix_cell arrangement resolution longitude z)) }
{
    let refusal = fix_refusal(arrangement, resolution, longitude, z);
    if refusal != 0 {
        return Err(refusal);
    }
    Ok(fix_code(arrangement, resolution, longitude, z))
}
