// Planar numbers in metres, as doubles.
#![tactic(auto)]

ghost use Rattle.std.specs.Prelude.{◌≡◌, ◌^◌, ◌≤◌, nat_abs};
ghost use Rattle.metres.specs.Metres.{is_side, metres_of};

// Whether a face side is from 1 to 2^30 metres: one that is not a number fails each comparison.
pub fn is_side(side: f64) -> bool
    ensures { result ≡ is_side side }
{
    if side >= 1.0 {
        side <= 1073741824.0
    } else {
        false
    }
}

// A planar number times the side, then divided by M, each step rounded once.
pub fn metres_of(x: i64, side: f64) -> f64
    requires { nat_abs x ≤ 2 ^ 27 }
    ensures { result ≡ metres_of x side }
{
    (x as f64) * side / 28697814.0
}
