// Floors over a root, decided exactly (01 "From a fix to a cell": "A floor over the root is the whole number w with w <= value < w + 1").
#![tactic(auto)]

ghost use Rattle.std.specs.Prelude.{◌≡◌, ◌+◌, ◌*◌, ◌^◌, ◌≤◌, ◌<◌, neg_ℤ};
ghost use Rattle.wide.specs.Value.{three};
ghost use Rattle.root.specs.Floor.{square, plus_at, minus_at, at_most, root_floor, axis_of};
ghost use Rattle.root.specs.Part.{firm, part_of};
ghost use Rattle.root.specs.Internal.Bracket.{low_part};

use ternary::FINEST_ROWS;
use wide::Three;

mod guess;

// A signed whole number: the part of the root that a floor adds or takes away.
#[derive(Clone, Copy)]
pub struct Axis {
    pub minus: bool,
    pub size: u64,
}

// -x.
pub fn negated(x: Axis) -> Axis
    ensures { (axis_of result ≡ neg_ℤ (axis_of x)) × (result.size ≡ x.size) }
{
    let minus = x.minus;
    Axis {
        minus: !minus,
        size: x.size,
    }
}

// ---- the whole root

// A number near the root: the radicand is moved up to 63 or 64 bits, and the root is looked up by the first eight of these and then taken along a line. For a
// large radicand it is at most one part in 250,000 off. No proof leans on that: it spares steps.
fn near_root(radicand: u64) -> u64
    ensures { (1 ≤ result) × (result ≤ 2 ^ 33) }
{
    let s = u64::leading_zeros(radicand) as u64 / 2 % 32;
    let moved = radicand << (2 * s);
    let found = guess::root_and_rise(moved / 72_057_594_037_927_936);
    let along = moved / 16_777_216 % 4_294_967_296;
    let rise = found / 4_294_967_296 * along / 4_294_967_296;
    ((found % 4_294_967_296 + rise) >> s) + 1
}

// One of Newton's steps from there, which ends at or above the root, and for a large t less than 1 above it.
fn first_root(radicand: u64) -> u64
    requires { radicand < 10 ^ 18 }
    ensures { (radicand < (result + 1) * (result + 1)) × (result ≤ 1000000000) }
{
    let near = near_root(radicand);
    let r = (near + radicand / near) / 2;
    if r < 1_000_000_000 {
        return r;
    }
    1_000_000_000
}

// The largest r with r * r <= radicand, by Newton's steps from above. The first guess is almost always the root already.
pub fn whole_root(radicand: u64) -> u64
    requires { radicand < 10 ^ 18 }
    ensures { (result * result ≤ radicand) × (radicand < (result + 1) * (result + 1)) }
{
    let mut r = first_root(radicand);
    while radicand < r * r {
        r = (r + radicand / r) / 2;
    }
    r
}

// ---- the exact test, by sign and by squares

// The square of 9 x 10^17 x.
fn edge(x: u64) -> Three
    requires { x ≤ 14348907 }
    ensures { three result ≡ square (900000000000000000 * x) }
{
    let d = wide::product(900_000_000_000_000_000, 900_000_000_000_000_000);
    wide::times(d, x * x)
}

// y y radicand.
fn reach(y: u64, radicand: u64) -> Three
    ensures { three result ≡ square y * radicand }
{
    let s = wide::product(y, y);
    wide::times(s, radicand)
}

// Whether w is at most the value, for a part of the root that is added.
fn plus_reaches(m: u64, radicand: u64, g: u64, w: u64) -> bool
    requires { (m ≤ 14348907) × (g ≤ 900000000) × (w ≤ m) }
    ensures { result ≡ plus_at m radicand g w }
{
    let v = 2 * w;
    if v <= m {
        return true;
    }
    let left = edge(v - m);
    let right = reach(m * g, radicand);
    wide::at_most(left, right)
}

// The same, for a part that is taken away.
fn minus_reaches(m: u64, radicand: u64, g: u64, w: u64) -> bool
    requires { (m ≤ 14348907) × (g ≤ 900000000) × (w ≤ m) }
    ensures { result ≡ minus_at m radicand g w }
{
    let v = 2 * w;
    if m < v {
        return false;
    }
    let left = reach(m * g, radicand);
    let right = edge(m - v);
    wide::at_most(left, right)
}

// Whether w is at most the value.
fn reaches(m: u64, radicand: u64, p: Axis, w: u64) -> bool
    requires { (m ≤ 14348907) × (p.size ≤ 900000000) × (w ≤ m) }
    ensures { result ≡ at_most m radicand (axis_of p) w }
{
    let minus = p.minus;
    let size = p.size;
    if minus {
        if size > 0 {
            return minus_reaches(m, radicand, size, w);
        }
    }
    plus_reaches(m, radicand, size, w)
}

// ---- the floor. It is taken at the finest resolution, where the divisors are known

// What a value is counted in, so many of 3^15: 900,000,000,000,000,000 is the middle.
const UNITS: u64 = 1_800_000_000_000_000_000;

// UNITS / 3^15 rounded up, and what 3^15 times that is more than UNITS.
const STEP: u64 = 125_445_094_878;

const OVER: u64 = 10_598_346;

// A whole part, or one less, and the rest.
#[derive(Clone, Copy)]
struct Parted {
    whole: u64,
    rest: u64,
}

// The lower of the two that the value lies between, by `root` or by `root + 1`: the larger takes away more.
fn low_end(root: u64, p: Axis) -> u64
    requires { (root < 1000000000) × (p.size ≤ 900000000) }
    ensures { result ≡ low_part p.minus p.size root }
{
    let minus = p.minus;
    let size = p.size;
    let part = size * root;
    if minus {
        return 900_000_000_000_000_000 - part - size;
    }
    900_000_000_000_000_000 + part
}

// 3^15 x in UNITS: x / STEP, which is the whole part but for the little that STEP is too large.
fn part_of(x: u64) -> Parted
    requires { x < 1800000000000000000 }
    ensures rest_value { result.whole * 1800000000000000000 + result.rest ≡ 3 ^ 15 * x }
    ensures whole_bound { (result.whole < 3 ^ 15) × (result.rest < 2 * 1800000000000000000) }
{
    let whole = x / STEP;
    Parted {
        whole,
        rest: FINEST_ROWS * (x % STEP) + OVER * whole,
    }
}

// The floor at resolution 15. Where the rest has room for the upper end too, both ends have the same whole part, and it is the floor; elsewhere the
// floor is the lower end's or the next, and the exact test decides.
fn finest(radicand: u64, root: u64, p: Axis) -> u64
    requires { (radicand < 10 ^ 18) × (p.size ≤ 900000000) × (root * root ≤ radicand) × (radicand < (root + 1) * (root + 1)) }
    ensures { (result ≡ root_floor (3 ^ 15) radicand (axis_of p)) × (result < 3 ^ 15) }
{
    let size = p.size;
    let part = part_of(low_end(root, p));
    let whole = part.whole;
    let rest = part.rest;
    if rest + FINEST_ROWS * size < UNITS {
        return whole;
    }
    let low = whole + rest / UNITS;
    let up = low + 1;
    if reaches(FINEST_ROWS, radicand, p, up) {
        up
    } else {
        low
    }
}

// The floor of m (1/2 + p h / 1,800,000,000), with m = 3^k, h = sqrt(radicand) / 10^9 and root the whole root of radicand: the first digits of that at
// resolution 15.
pub fn floor(k: u64, m: u64, radicand: u64, root: u64, p: Axis) -> u64
    requires { (k ≤ 15) × (m ≡ 3 ^ k) × (radicand < 10 ^ 18) × (p.size ≤ 900000000) × (root * root ≤ radicand) × (radicand < (root + 1) * (root + 1)) }
    ensures { (result ≡ root_floor (3 ^ k) radicand (axis_of p)) × (result < 3 ^ k) }
{
    let w = finest(radicand, root, p);
    if k < 15 {
        return w * m / FINEST_ROWS;
    }
    w
}

// ---- parts of 2^56, for weaving: a part is good where its digits are certain, and that is almost everywhere

// Whether the first fifteen ternary digits of a part are those of somewhat more too. One product of the upper 40 bits tells.
pub fn is_firm(part: u64, room: u64) -> bool
    requires { (part < 2 ^ 56) × (room ≤ 2 ^ 40) }
    ensures { result ≡ firm part room }
{
    part / 65_536 * FINEST_ROWS % 1_099_511_627_776 + room < 1_099_511_627_776
}

// The room that the upper end takes.
pub const ROOM: u64 = 7_902_744_606;

// 2^120 / UNITS, rounded down.
const BY_UNITS: u64 = 738_459_997_658_286_596;

// The lower end as a part. Where it is firm by ROOM, its digits are the finest floor's.
pub fn part(root: u64, p: Axis) -> u64
    requires { (root < 1000000000) × (p.size ≤ 900000000) }
    ensures { (result ≡ part_of p.minus p.size root) × (result < 2 ^ 56) }
{
    wide::high(low_end(root, p), BY_UNITS)
}
