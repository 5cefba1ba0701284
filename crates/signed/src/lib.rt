// Signed numbers, taken to unsigned ones and made of them: no other crate computes with an i64.
#![tactic(auto)]

ghost use Rattle.std.specs.Prelude.{◌≡◌, true, ◌<◌, ◌^◌, pos, neg_ℤ, nat_abs, ◌+ℤ◌};
ghost use Rattle.std.proofs.Math.IntN.{sub_ℕ};
ghost use Rattle.std.specs.Int.Signed.{le_z};
ghost use Rattle.signed.specs.Sign.{negative};

// Whether x is below 0.
pub fn is_negative(x: i64) -> bool
    ensures { result ≡ negative x }
{
    x < 0
}

// Whether x is at most y.
pub fn at_most(x: i64, y: i64) -> bool
    ensures { result ≡ le_z x y }
{
    x <= y
}

// x without its sign. -1 - x is taken first, since the least i64 has no opposite.
pub fn magnitude(x: i64) -> u64
    ensures { result ≡ nat_abs x }
{
    if x < 0 { (-1 - x) as u64 + 1 } else { x as u64 }
}

// x + by, which is not below 0. Both ways come to one sum of words, and the compiler sees that.
pub fn shifted(x: i64, by: u64) -> u64
    requires by_bound { by < 2 ^ 63 }
    requires x_value { le_z (neg_ℤ (pos by)) x ≡ true }
    ensures { result ≡ nat_abs (x +ℤ pos by) }
{
    if x < 0 {
        by - (-1 - x) as u64 - 1
    } else {
        by + x as u64
    }
}

// x - y.
pub fn difference(x: u64, y: u64) -> i64
    requires x_bound { x < 2 ^ 63 }
    requires y_bound { y < 2 ^ 63 }
    ensures { result ≡ sub_ℕ x y }
{
    if y <= x {
        (x - y) as i64
    } else {
        0 - (y - x) as i64
    }
}

// n itself.
pub fn as_signed(n: u64) -> i64
    requires { n < 2 ^ 63 }
    ensures { result ≡ pos n }
{
    n as i64
}
