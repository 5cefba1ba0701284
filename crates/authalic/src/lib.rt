// The authalic sine of a geodetic latitude (02 W-203): two values of one series, and their quotient.
#![tactic(auto)]

ghost use Rattle.std.specs.Prelude.{◌≡◌, true, ◌+◌, ◌-◌, ◌*◌, ◌^◌, ◌≤◌, ◌<◌};
ghost use Rattle.wide.specs.High.{high_word};
ghost use Rattle.authalic.specs.Authalic.{is_geodetic, eccentricity_refusal};
ghost use Rattle.authalic.specs.Computed.{eccentricity_word, point_word, series_word, grown, share_word, less_word, sine_word, authalic_sine};

// The greatest squared eccentricity.
const GREATEST: u64 = 10_000_000_000;

// The sine of the pole.
const ONE: u64 = 1_000_000_000_000_000_000;

// e = E / 10^12, in units of 10^36 / 2^184.
fn eccentricity_word(eccentricity: u64) -> u64
    requires { eccentricity ≤ 10 ^ 10 }
    ensures { result ≡ eccentricity_word eccentricity }
{
    wide::high(eccentricity * 0x4000_0000, 421_249_166_674_228_746)
}

// x = e s^2, in units of 2^-64.
fn point_word(s: u64, e: u64) -> u64
    requires { s ≤ 10 ^ 18 }
    ensures { result ≡ point_word s e }
{
    let square = wide::high(16 * s, 16 * s);
    wide::high(square, e)
}

// One step of Horner's rule: c + x g.
fn step(c: u64, x: u64, g: u64) -> u64
    requires x_bound { 100 * x ≤ 2 ^ 64 }
    requires g_bound { 100 * c + g < 100 * 2 ^ 64 }
    ensures { (result ≡ c + high_word x g) × (100 * result ≤ 100 * c + g) }
{
    c + wide::high(x, g)
}

// 1 + 2/3 x + 3/5 x^2 + .. + 10/19 x^9, in units of 1 / 18,320,000,000,000,000,000.
fn series_word(x: u64) -> u64
    requires { 100 * x ≤ 2 ^ 64 }
    ensures { result ≡ series_word x }
{
    let g = step(9_698_823_529_411_764_705, x, 9_642_105_263_157_894_736);
    let g = step(9_770_666_666_666_666_666, x, g);
    let g = step(9_864_615_384_615_384_615, x, g);
    let g = step(9_992_727_272_727_272_727, x, g);
    let g = step(10_177_777_777_777_777_777, x, g);
    let g = step(10_468_571_428_571_428_571, x, g);
    let g = step(10_992_000_000_000_000_000, x, g);
    let g = step(12_213_333_333_333_333_333, x, g);
    step(18_320_000_000_000_000_000, x, g)
}

// y + y a, for a in units of 2^-64.
fn grow(y: u64, a: u64) -> u64
    requires a_bound { 100 * a ≤ 2 ^ 64 }
    requires y_bound { 101 * y < 100 * 2 ^ 64 }
    ensures { (result ≡ grown y a) × (100 * result ≤ 101 * y) }
{
    y + wide::high(y, a)
}

// 2^64 w / b: with b = 2^64 (1 - a) that is w (1 + a) (1 + a^2) (1 + a^4) but for an a^8 that is less than all the cut products.
fn share_word(w: u64, b: u64) -> u64
    requires w_bound { w ≤ 14000000000000000000 }
    requires le_b { 18320000000000000000 ≤ b }
    ensures { (result ≡ share_word w b) × (result ≤ 15000000000000000000) }
{
    let a = u64::MAX - b + 1;
    let c = wide::high(a, a);
    let y = grow(grow(w, a), c);
    grow(y, wide::high(c, c))
}

// s (b - a) / b, to the nearest.
fn less_word(s: u64, a: u64, b: u64) -> u64
    requires s_bound { s ≤ 10 ^ 18 }
    requires le_a { 18320000000000000000 ≤ a }
    requires a_le_b { a ≤ b }
    requires b_bound { b ≤ 18444000000000000000 }
    ensures { result ≡ less_word s a b }
{
    let w = wide::high(16 * s, 128 * (b - a));
    (share_word(w, b) + 1024) / 2048
}

// The authalic sine for a sine from 0 to 10^18. Above and below are one computation, so that at 10^18 they are the same number.
fn sine_word(eccentricity: u64, s: u64) -> u64
    requires eccentricity_bound { eccentricity ≤ 10 ^ 10 }
    requires s_bound { s ≤ 10 ^ 18 }
    ensures { result ≡ sine_word eccentricity s }
{
    let e = eccentricity_word(eccentricity);
    let above = series_word(point_word(s, e));
    let below = series_word(point_word(ONE, e));
    s - less_word(s, above, below)
}

// "S, -10^18 to 10^18 .., and .. E .., from 0 to 10,000,000,000"
pub fn is_geodetic(sine: i64, eccentricity: u64) -> bool
    ensures { result ≡ is_geodetic sine eccentricity }
{
    if signed::at_most(-1_000_000_000_000_000_000, sine) {
        if signed::at_most(sine, 1_000_000_000_000_000_000) {
            return eccentricity <= GREATEST;
        }
    }
    false
}

// 6 where a squared eccentricity is out of range, else 0.
pub fn eccentricity_refusal(eccentricity: u64) -> u64
    ensures { result ≡ eccentricity_refusal eccentricity }
{
    if eccentricity > GREATEST { 6 } else { 0 }
}

// The authalic sine of a geodetic sine in units of 10^-18, on the ellipsoid of that squared eccentricity in units of 10^-12.
pub fn sine_of(sine: i64, eccentricity: u64) -> i64
    requires { is_geodetic sine eccentricity ≡ true }
    ensures { result ≡ authalic_sine sine eccentricity }
{
    let size = sine_word(eccentricity, signed::magnitude(sine));
    if signed::is_negative(sine) {
        return signed::difference(0, size);
    }
    signed::as_signed(size)
}
