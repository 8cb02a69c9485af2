// Powers of a block: seek, a product with a power, and the companion. The exponent is a public number, so branches on it are fine.
ghost use Rattle.std.specs.Prelude.{◌≡◌, ◌+◌, ◌-◌, ◌^◌, ◌<◌, ◌≤◌};
ghost use Rattle.field.specs.Blocks.{◌•◌};
ghost use Rattle.field.specs.Powers.{power, steps};
ghost use Rattle.field.specs.Clauses.{counted, sought};

use super::blocks::Block;
use super::multiplying::{Count, Counted, counted_product, squared};

// A power, the steps it took, and the running count with them counted.
#[derive(Clone, Copy)]
pub struct Sought {
    pub power: Block,
    pub steps: u64,
    pub count: Count,
}

// The steps of seek for k, by the language's own counts of bits: the ones of k plus its width less one, and none for 0.
fn steps_of(k: u64) -> u64
    ensures { result ≡ steps k }
{
    if k == 0 {
        return 0;
    }
    let ones = k.count_ones();
    let width = 64 - k.leading_zeros();
    (ones + width - 1) as u64
}

// y times x^bit: a counted product where the bit of the exponent is one, and y itself where it is zero. The bit is a number, as the power is by it.
fn times_bit(y: Block, x: Block, bit: u64, count: Count) -> Counted
    requires { (bit ≤ 1) × (count.raised < 2 ^ 64 - 1) }
    ensures { result ≡ counted (y • power x bit) (count.raised + bit) }
{
    if bit == 0 {
        return Counted { value: y, count };
    }
    counted_product(y, x, count)
}

// base^k: y starts at one and x at base; for each bit of k from the lowest up, y is multiplied by x where the bit is one, and x
// is squared while higher ones remain. Every product is a counted product. The count has a bound only because the running count
// needs room for the steps, at most 127. It serves the layers above.
pub fn seek(base: Block, k: u64, count: Count) -> Sought
    requires { count.raised + 128 < 2 ^ 64 }
    ensures { result ≡ sought (power base k) (steps k) (count.raised + steps k) }
{
    let mut y = Block::ONE;
    let mut x = base;
    let mut left = k;
    let mut running = count;
    // a while: left goes down by halves, as no range does
    while 1 < left {
        let next = times_bit(y, x, left % 2, running);
        running = next.count;
        let square = counted_product(x, x, running);
        y = next.value;
        x = square.value;
        running = square.count;
        left /= 2;
    }
    let last = times_bit(y, x, left, running);
    Sought {
        power: last.value,
        steps: steps_of(k),
        count: last.count,
    }
}

// x times base^k: seek, and then one counted product. It serves the layers above.
pub fn times_power(x: Block, base: Block, k: u64, count: Count) -> Counted
    requires { count.raised + 128 < 2 ^ 64 }
    ensures { result ≡ counted (x • power base k) (count.raised + steps k + 1) }
{
    let found = seek(base, k, count);
    counted_product(x, found.power, found.count)
}

// The companion I = H^(2^128 − 2): 127 squarings of H, each followed by a product. It serves the layers above.
pub fn companion(h: Block) -> Block
    ensures { result ≡ Rattle.field.specs.Powers.companion h }
{
    let mut x = h;
    let mut y = Block::ONE;
    for _ in 0..127usize {
        x = squared(x);
        y = counted_product(y, x, Count::none()).value;
    }
    y
}
