// Long division: quotients of numbers that no machine word holds.
#![tactic(auto)]

ghost use Rattle.std.specs.Prelude.{◌*◌, ◌^◌, ◌<◌};
ghost use Rattle.division.specs.Division.{Divided};

// A whole part and the rest.
#[derive(Clone, Copy)]
pub struct Quotient {
    pub whole: u64,
    pub rest: u64,
}

// base^k n divided by d, for n below d: a digit of the whole part in each turn.
pub fn scaled(base: u64, k: u64, n: u64, d: u64) -> Quotient
    requires n_lt_d { n < d }
    requires base_nonzero { 0 < base }
    requires d_bound { base * d < 2 ^ 64 }
    requires k_bound { base ^ k < 2 ^ 64 }
    ensures { Divided (base ^ k * n) d result }
{
    let mut whole: u64 = 0;
    let mut rest = n;
    for _ in 0..k {
        let next = rest * base;
        whole = whole * base + next / d;
        rest = next % d;
    }
    Quotient { whole, rest }
}
