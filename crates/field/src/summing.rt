// Sums over a byte list's blocks by Horner's rule, where the bytes lie.
ghost use Rattle.std.specs.Prelude.{◌≡◌, ◌++◌, ◌+◌, ◌≤◌, ◌<◌, ◌^◌, length, replicate};
ghost use Rattle.field.specs.Bytes.{xor_bytes};
ghost use Rattle.field.specs.Sums;
ghost use Rattle.field.specs.Ghash.{Yᵢ};
ghost use Rattle.field.specs.Clauses.{counted};

use super::batches::batches;
use super::blocks::Block;
use super::multiplying::{Count, Counted, counted_product};

// How many blocks n bytes fill: n / 16 rounded up, for any n. It serves the layers above.
pub fn blocks(n: u64) -> u64
    ensures { result ≡ Sums.blocks n }
{
    n.div_ceil(16)
}

// Horner's rule from start over the first q blocks of lead zero bytes followed by a added to b, byte by byte; the shorter is
// padded with zero bytes, and nothing is copied. Each product adds one to count. It serves the layers above, whose edits are sums
// of old and new bytes. The requires: the last place that is read is no larger than an index can be, and the count has room.
pub fn fold(
    h: Block,
    start: Block,
    lead: usize,
    a: &[u8],
    b: &[u8],
    q: usize,
    count: Count,
) -> Counted
    requires { (q ≤ 2 ^ 59) × (count.raised + q < 2 ^ 64) }
    ensures { result ≡ counted (Yᵢ h start (replicate lead 0 ++ xor_bytes a.now b.now) q) (count.raised + q) }
{
    let mut y = start;
    let mut running = count;
    for i in 0..q {
        let x = Block::load(lead, a, i).plus(Block::load(lead, b, i));
        let next = counted_product(y.plus(x), h, running);
        y = next.value;
        running = next.count;
    }
    Counted {
        value: y,
        count: running,
    }
}

// At how many bytes a run goes sixteen blocks at a time: below, the table of powers costs more than it saves.
const BATCHED: usize = 512;

// Horner's rule from start over all the blocks of s, block by block.
fn run_singly(h: Block, start: Block, s: &[u8]) -> Block
    ensures { result ≡ Yᵢ h start s.now (Sums.blocks (length s.now)) }
{
    let q = blocks(s.len() as u64) as usize;
    fold(h, start, 0, s, &[], q, Count::none()).value
}

// The same, sixteen blocks at a time as far as they go. It stays a function of its own: were it part of `run`, a short run too would take the stack
// of its table.
#[inline(never)]
fn run_long(h: Block, start: Block, s: &[u8]) -> Block
    ensures { result ≡ Yᵢ h start s.now (Sums.blocks (length s.now)) }
{
    let whole = s.len() / 256;
    let y = batches(h, start, s, whole);
    run_singly(h, y, &s[256 * whole..])
}

// Horner's rule from start over all the blocks of s, in the one way or the other. It serves the layers above.
pub fn run(h: Block, start: Block, s: &[u8]) -> Block
    ensures { result ≡ Yᵢ h start s.now (Sums.blocks (length s.now)) }
{
    if s.len() < BATCHED {
        return run_singly(h, start, s);
    }
    run_long(h, start, s)
}

// The sum S of s. It serves the layers above.
pub fn sum(h: Block, s: &[u8]) -> Block
    ensures { result ≡ Sums.sum h s.now }
{
    run(h, Block::ZERO, s)
}
