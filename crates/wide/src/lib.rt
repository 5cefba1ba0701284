// Whole numbers of two and of three words of 64 bits, by value: the squares that decide a floor over a root stay below 2^168. And the upper word
// of a product, for the one sum that is rounded (02 W-203).
#![tactic(auto)]

ghost use Rattle.std.specs.Prelude.{◌≡◌, ◌+◌, ◌*◌, ◌^◌, ◌≤◌, leb};
ghost use Rattle.wide.specs.High.{high_word};
ghost use Rattle.wide.specs.Value.{two, three};

#[derive(Clone, Copy)]
pub struct Two {
    pub high: u64,
    pub low: u64,
}

#[derive(Clone, Copy)]
pub struct Three {
    pub high: u64,
    pub middle: u64,
    pub low: u64,
}

// The sum of two words, with its carry.
pub fn sum(a: u64, b: u64) -> Two
    ensures { (two result ≡ a + b) × (result.high ≤ 1) }
{
    if a <= u64::MAX - b {
        Two {
            high: 0,
            low: a + b,
        }
    } else {
        Two {
            high: 1,
            low: a - (u64::MAX - b) - 1,
        }
    }
}

// The product of two words, by halves of 32 bits.
pub fn product(a: u64, b: u64) -> Two
    ensures { two result ≡ a * b }
{
    let a1 = a / 0x1_0000_0000;
    let a0 = a % 0x1_0000_0000;
    let b1 = b / 0x1_0000_0000;
    let b0 = b % 0x1_0000_0000;
    let w = a0 * b0;
    let t = a1 * b0 + w / 0x1_0000_0000;
    let v = t % 0x1_0000_0000 + a0 * b1;
    Two {
        high: a1 * b1 + t / 0x1_0000_0000 + v / 0x1_0000_0000,
        low: v % 0x1_0000_0000 * 0x1_0000_0000 + w % 0x1_0000_0000,
    }
}

// The upper word of a product.
pub fn high(a: u64, b: u64) -> u64
    ensures { result ≡ high_word a b }
{
    product(a, b).high
}

// The product of two words and one.
pub fn times(a: Two, b: u64) -> Three
    ensures { three result ≡ two a * b }
{
    let l = product(a.low, b);
    let h = product(a.high, b);
    let m = sum(l.high, h.low);
    Three {
        high: h.high + m.high,
        middle: m.low,
        low: l.low,
    }
}

// Whether the words (a2, a1, a0) are at most the words (b2, b1, b0), the highest first.
fn words_at_most(a2: u64, a1: u64, a0: u64, b2: u64, b1: u64, b0: u64) -> bool
    ensures { result ≡ leb ((a2 * 2 ^ 64 + a1) * 2 ^ 64 + a0) ((b2 * 2 ^ 64 + b1) * 2 ^ 64 + b0) }
{
    if a2 < b2 {
        return true;
    }
    if b2 < a2 {
        return false;
    }
    if a1 < b1 {
        return true;
    }
    if b1 < a1 {
        return false;
    }
    a0 <= b0
}

// Whether a is at most b.
pub fn at_most(a: Three, b: Three) -> bool
    ensures { result ≡ leb (three a) (three b) }
{
    words_at_most(a.high, a.middle, a.low, b.high, b.middle, b.low)
}
