// The ground nucleus of a cell, in whole numbers: the fractions that the rules send to the cell's middle, floored. A coarser cell's fractions are
// taken with both numbers 3^(15-k) times as great: then the divisors are known beforehand, and dividing by them is multiplying.
#![tactic(auto)]

ghost use Rattle.std.specs.Prelude.{◌≡◌, cond, ◌+◌, ◌-◌, ◌*◌, ◌/◌, ◌^◌, ◌≤◌, ◌<◌, eqb, pos, neg_ℤ};
ghost use Rattle.std.proofs.Math.IntN.{sub_ℕ};
ghost use Rattle.cell.specs.Cell.{IsCell, IsArrangement};
ghost use Rattle.locate.specs.Fix.{quarter};
ghost use Rattle.nucleus.specs.Nucleus.{floor_z, north_z, south_z, centred, north_nucleus, south_nucleus, ground_nucleus};
ghost use Rattle.nucleus.specs.Internal.Triangle.{middle, InFace, OffCentre, IsStart};

use cell::{Arrangement, Cell};
use division::Quotient;
use ternary::FINEST_ROWS;

// A longitude, in ten-millionths of a degree, and the sine of the authalic latitude, in units of 10^-18.
#[derive(Clone, Copy)]
pub struct Fix {
    pub longitude: i64,
    pub z: i64,
}

// How often a cap's start was turned, its height, and the place along it from its western end.
#[derive(Clone, Copy)]
struct Start {
    turn: u64,
    height: u64,
    along: u64,
}

// The longitude in a face of O to R, of which along / (2 height) lies west of it, floored.
fn longitude_at(face: u64, along: u64, height: u64) -> i64
    requires face_bound { face < 4 }
    requires along_bound { along < 2 * height }
    requires height_bound { height < 2 ^ 24 }
    ensures { result ≡ sub_ℕ (face * quarter + 450000000 * along / height) 1800000000 }
{
    let east = face * 900_000_000 + 450_000_000 * along / height;
    signed::difference(east, 1_800_000_000)
}

// How far two numbers lie apart.
fn apart(x: u64, y: u64) -> u64
    ensures { result ≡ x - y + (y - x) }
{
    if x < y { y - x } else { x - y }
}

// x or y.
fn chosen(first: bool, x: u64, y: u64) -> u64
    ensures { result ≡ cond first x y }
{
    if first { x } else { y }
}

// What a rest adds to the size of a fraction below 0.
fn more_of(rest: u64) -> u64
    ensures { (result ≡ cond (eqb rest 0) 0 1) × (result ≤ 1) }
{
    if rest == 0 { 0 } else { 1 }
}

// A fraction, floored towards minus infinity, by its sign and the quotient of its size: below 0 a rest leads away from 0.
fn floored(minus: bool, q: Quotient) -> i64
    requires { q.whole < 10 ^ 18 }
    ensures { result ≡ cond minus (sub_ℕ 0 (q.whole + cond (eqb q.rest 0) 0 1)) (pos q.whole) }
{
    let whole = q.whole;
    let rest = q.rest;
    let more = more_of(rest);
    signed::difference(chosen(minus, 0, whole), chosen(minus, whole + more, 0))
}

// z of a cell of the belt whose middle lies b / 2m of the side below the top, for m = 3^15.
fn belt_z(b: u64) -> i64
    requires b_nonzero { 0 < b }
    requires b_bound { b < 2 * 3 ^ 15 }
    ensures { result ≡ floor_z (sub_ℕ (2 * 10 ^ 18 * 3 ^ 15) (2 * 10 ^ 18 * b)) (3 * 3 ^ 15) }
{
    let q = division::scaled(1_000_000_000, 2, 2 * apart(FINEST_ROWS, b), 3 * FINEST_ROWS);
    floored(FINEST_ROWS < b, q)
}

// z of a start of that height, for m = 3^15.
fn cap_z(south: bool, h: u64) -> i64
    requires h_nonzero { 0 < h }
    requires h_bound { h < 3 ^ 15 }
    ensures { result ≡ cond south (south_z (3 ^ 15) h) (north_z (3 ^ 15) h) }
{
    let d = 3 * (FINEST_ROWS * FINEST_ROWS);
    let q = division::scaled(1000, 6, d - h * h, d);
    floored(south, q)
}

// z of a pole.
fn pole_z(south: bool) -> i64
    ensures { result ≡ cond south (neg_ℤ (pos (10 ^ 18))) (pos (10 ^ 18)) }
{
    if south {
        return signed::difference(0, 1_000_000_000_000_000_000);
    }
    signed::as_signed(1_000_000_000_000_000_000)
}

// Whether the middle of a cap's cell, a / 2m from the left and b / 2m from the top, is the pole.
fn is_centre(m: u64, a: u64, b: u64) -> bool
    ensures { result ≡ centred (middle m a b) }
{
    if a == m {
        return b == m;
    }
    false
}

// The start of a middle in the north: a seam is the western edge of the eastern triangle.
fn start_of(m: u64, a: u64, b: u64) -> Start
    requires in_face { InFace m a b }
    requires off_centre { OffCentre m a b }
    ensures { IsStart m a b result.turn result.height result.along }
{
    let sum = a + b;
    let side = 2 * m;
    if a < b {
        if side <= sum {
            return Start {
                turn: 0,
                height: b - m,
                along: sum - side,
            };
        }
    }
    if side < sum {
        return Start {
            turn: 1,
            height: a - m,
            along: a - b,
        };
    }
    if b < a {
        return Start {
            turn: 2,
            height: m - b,
            along: side - sum,
        };
    }
    Start {
        turn: 3,
        height: m - a,
        along: b - a,
    }
}

// In the south a middle is mirrored from top to bottom.
fn mirrored(south: bool, m: u64, b: u64) -> u64
    requires m_bound { m < 2 ^ 24 }
    requires b_bound { b < 2 * m }
    ensures { result ≡ cond south (2 * m - b) b }
{
    if south {
        return 2 * m - b;
    }
    b
}

// A cell of N or S, where `first` is n or s.
fn cap_nucleus(south: bool, first: u64, up: u64, m: u64, a: u64, b: u64) -> Fix
    requires first_bound { first ≤ 3 }
    requires in_face { InFace m a b }
    requires up_nonzero { (0 < up) × (up * m ≡ 3 ^ 15) }
    ensures { result ≡ cond south (south_nucleus first m (middle m a b)) (north_nucleus first m (middle m a b)) }
{
    if is_centre(m, a, b) {
        return Fix {
            longitude: signed::difference(0, 1_800_000_000), // at a pole
            z: pole_z(south),
        };
    }
    let start = start_of(m, a, mirrored(south, m, b));
    let h = start.height;
    Fix {
        longitude: longitude_at((first + start.turn) % 4, start.along, h),
        z: cap_z(south, up * h),
    }
}

// n or s.
fn first_of(arrangement: Arrangement, south: bool) -> u64
    ensures { result ≡ cond south arrangement.south arrangement.north }
{
    if south {
        return arrangement.south;
    }
    arrangement.north
}

// The longitude and z that the rules send to the middle of a cell, each floored.
pub fn ground_nucleus(arrangement: Arrangement, cell: Cell) -> Fix
    requires arrangement { IsArrangement arrangement }
    requires cell { IsCell cell }
    ensures { result ≡ ground_nucleus arrangement cell }
{
    let face = cell.face;
    let m = ternary::power(cell.resolution);
    let up = ternary::power(15 - cell.resolution);
    let a = 2 * cell.column + 1;
    let b = 2 * cell.row + 1;
    if face > 0 {
        if face < 5 {
            return Fix {
                longitude: longitude_at(face - 1, up * a, FINEST_ROWS),
                z: belt_z(up * b),
            };
        }
    }
    let south = face > 4;
    cap_nucleus(south, first_of(arrangement, south), up, m, a, b)
}
