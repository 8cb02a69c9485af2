// The sum of a blank file, one whose bytes are all the same, found without reading a byte. The fill byte and the length are public numbers,
// so branches on them are fine.
ghost use Rattle.std.specs.Prelude.{◌≡◌, ◌+◌, ◌^◌, ◌<◌, ◌≤◌, replicate};
ghost use Rattle.field.specs.Blocks.{◌⊕◌, ◌•◌, block_at};
ghost use Rattle.field.specs.Series;
ghost use Rattle.field.specs.Clauses.{counted, powers_to};

use super::blocks::Block;
use super::multiplying::{Count, Counted, counted_product};
use super::summing::blocks;

// The powers of H added up to some H^(k - 1), beside H^k, and the running count of the products that built them.
#[derive(Clone, Copy)]
struct Powers {
    sum: Block,
    next: Block,
    count: Count,
}

// The powers times by, and `added` with them: from k to 2k where by is H^k and what is added the first k of them, and from k to k + 1 where by is H and
// H^0 is added.
fn onward(s: Powers, by: Block, added: Block) -> Powers
    requires { s.count.raised + 2 < 2 ^ 64 }
    ensures { result ≡ powers_to (s.sum • by ⊕ added) (s.next • by) (s.count.raised + 2) }
{
    let higher = counted_product(s.sum, by, s.count);
    let power = counted_product(s.next, by, higher.count);
    Powers {
        sum: higher.value.plus(added),
        next: power.value,
        count: power.count,
    }
}

// The sum of H^0 to H^(k - 1), from the highest binary digit of k down: two products double, and two add one power where the digit is a one. The
// count has a bound only because the running count needs room for the products, at most 252.
fn series(h: Block, k: u64, count: Count) -> Counted
    requires { count.raised + 256 < 2 ^ 64 }
    ensures { result ≡ counted (Series.series h k) (count.raised + Series.series_steps k) }
{
    if k == 0 {
        return Counted {
            value: Block::ZERO,
            count,
        };
    }
    let mut s = Powers {
        sum: Block::ONE,
        next: h,
        count,
    };
    for left in (0..k.ilog2()).rev() {
        s = onward(s, s.next, s.sum);
        if (k >> left) % 2 == 1 {
            s = onward(s, h, Block::ONE);
        }
    }
    Counted {
        value: s.sum,
        count: s.count,
    }
}

// The block of r fill bytes, padded with zero bytes. The requires: they have room in a block.
fn filled(fill: u8, r: usize) -> Block
    requires { r ≤ 16 }
    ensures { result ≡ block_at (replicate r fill) 0 }
{
    let bytes = [fill; 16];
    Block::from_bytes(&bytes[..r])
}

// The sum of n fill bytes: H times (F times H times the series, and the last block), and nothing where there is no byte or each is zero. The
// requires: the running count has room for the products, at most 255. It serves the layers above.
pub fn blank_sum(h: Block, fill: u8, n: u64, count: Count) -> Counted
    requires { count.raised + 256 < 2 ^ 64 }
    ensures { result ≡ counted (Series.blank_sum h fill n) (count.raised + Series.blank_count fill n) }
{
    if n == 0 || fill == 0 {
        return Counted {
            value: Block::ZERO,
            count,
        };
    }
    let whole = blocks(n) - 1;
    let g = series(h, whole, count);
    let fh = counted_product(filled(fill, 16), h, g.count);
    let fhg = counted_product(fh.value, g.value, fh.count);
    let last = filled(fill, (n - 16 * whole) as usize);
    counted_product(h, fhg.value.plus(last), fhg.count)
}
