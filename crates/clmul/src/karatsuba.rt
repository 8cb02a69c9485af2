// Products of numbers of 128 bits from products of halves, by Karatsuba's rule twice.
ghost use Rattle.std.specs.Prelude.{◌≡◌, ◌+◌, ◌*◌, ◌/◌, ◌%◌, ◌^◌, ◌<◌};
ghost use Rattle.clmul.specs.Carryless.{◌⊗◌};
ghost use Rattle.clmul.specs.Halves.{karatsuba};
ghost use Rattle.clmul.specs.Tables.{double, wide};

use super::halves::{half_product, half_square};

// A number of two words.
#[derive(Clone, Copy)]
pub struct Double {
    pub hi: u64,
    pub lo: u64,
}

// A number of four words, w0 the lowest.
#[derive(Clone, Copy)]
pub struct Wide {
    pub w3: u64,
    pub w2: u64,
    pub w1: u64,
    pub w0: u64,
}

// The high half of a word. It serves the crate.
pub fn high(x: u64) -> u64
    ensures { result ≡ x / 2 ^ 32 }
{
    x >> 32
}

// The low half of a word. It serves the crate.
pub fn low(x: u64) -> u64
    ensures { result ≡ x % 2 ^ 32 }
{
    x & 0xffff_ffff
}

// Karatsuba's rule on products of halves. It serves the crate.
pub fn joined_halves(h: u64, l: u64, m: u64) -> Double
    ensures { double result ≡ karatsuba 32 h l m }
{
    let mid = m ^ h ^ l;
    Double {
        hi: h ^ (mid >> 32),
        lo: (mid << 32) ^ l,
    }
}

// Karatsuba's rule on products of words. It serves the crate.
pub fn joined_words(h: Double, l: Double, m: Double) -> Wide
    ensures { wide result ≡ karatsuba 64 (double h) (double l) (double m) }
{
    let mid_hi = m.hi ^ h.hi ^ l.hi;
    let mid_lo = m.lo ^ h.lo ^ l.lo;
    Wide {
        w3: h.hi,
        w2: h.lo ^ mid_hi,
        w1: mid_lo ^ l.hi,
        w0: l.lo,
    }
}

// The product of two words.
fn word_product(x: u64, y: u64) -> Double
    ensures { double result ≡ x ⊗ y }
{
    let xh = high(x);
    let xl = low(x);
    let yh = high(y);
    let yl = low(y);
    joined_halves(
        half_product(xh, yh),
        half_product(xl, yl),
        half_product(xh ^ xl, yh ^ yl),
    )
}

// The product of two numbers of 128 bits, each given by its high word and its low word. It serves the layers above.
pub fn product(xh: u64, xl: u64, yh: u64, yl: u64) -> Wide
    ensures { wide result ≡ (xh * 2 ^ 64 + xl) ⊗ (yh * 2 ^ 64 + yl) }
{
    joined_words(
        word_product(xh, yh),
        word_product(xl, yl),
        word_product(xh ^ xl, yh ^ yl),
    )
}

// The square of a number of 128 bits. It serves the layers above.
pub fn square(h: u64, l: u64) -> Wide
    ensures { wide result ≡ (h * 2 ^ 64 + l) ⊗ (h * 2 ^ 64 + l) }
{
    Wide {
        w3: half_square(high(h)),
        w2: half_square(low(h)),
        w1: half_square(high(l)),
        w0: half_square(low(l)),
    }
}
