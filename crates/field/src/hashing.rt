// GHASH of two byte lists.
ghost use Rattle.std.specs.Prelude.{◌≡◌, ◌≤◌, length};
ghost use Rattle.field.specs.Blocks.{◌⊕◌, ◌•◌};
ghost use Rattle.field.specs.Ghash.{length_block, ghash};
ghost use Rattle.field.specs.Answers.{max_bytes};

use super::blocks::Block;
use super::multiplying::{Count, counted_product};
use super::summing::run;

// The most bytes whose number of bits fits a word: 2^61 - 1. Each function asks it of its own inputs, since no type could: a state may hold any number
// (document 01, "The file and its five edits").
pub const MAX_BYTES: u64 = 0x1fff_ffff_ffff_ffff;

// The block of the bit lengths of m and of n bytes. The requires: each has room in its word.
fn length_block(m: u64, n: u64) -> Block
    requires { (m ≤ max_bytes) × (n ≤ max_bytes) }
    ensures { result ≡ length_block m n }
{
    Block::from_words(8 * m, 8 * n)
}

// The last step of every GHASH: y is Y after all the blocks of m bytes of A and n bytes of C. It serves the layers above.
// The requires: the number of bits of each fits a word.
pub fn closed(h: Block, y: Block, m: u64, n: u64) -> Block
    requires { (m ≤ max_bytes) × (n ≤ max_bytes) }
    ensures { result ≡ (y ⊕ length_block m n) • h }
{
    counted_product(y.plus(length_block(m, n)), h, Count::none()).value
}

// GHASH of a and c under h. It serves the layers above. The requires: the number of bits of each fits a word.
pub fn hash(h: Block, a: &[u8], c: &[u8]) -> Block
    requires { (length a.now ≤ max_bytes) × (length c.now ≤ max_bytes) }
    ensures { result ≡ ghash h a.now c.now }
{
    let y = run(h, run(h, Block::ZERO, a), c);
    closed(h, y, a.len() as u64, c.len() as u64)
}
