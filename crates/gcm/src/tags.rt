// The tag's parts: the hash key H, the block J, the tag of a sum, and whether two tags are the same.
ghost use Rattle.std.specs.Prelude.{◌≡◌, ◌≤◌, eqb, length};
ghost use Rattle.field.specs.Field.{max_bytes, value};
ghost use Rattle.gcm.specs.Gmac.{hash_key, tag_of};
ghost use Rattle.gcm.specs.Gmac;

use cipher::Key;
use field::Block;
use field::hashing::{closed, hash};
use field::packing::store;

// H: the cipher of the zero block. It serves the layers above.
pub fn hash_key(key: Key) -> Block
    ensures { result ≡ hash_key key.bytes }
{
    Block::from_bytes(&key.encrypt([0u8; 16]))
}

// J: a nonce of twelve bytes, then the 32-bit number 1; of any other nonce its hash. It serves the crate. The requires: the number of its
// bits fits a word.
pub fn nonce_block(h: Block, nonce: &[u8]) -> [u8; 16]
    requires { length nonce.now ≤ max_bytes }
    ensures { result ≡ Gmac.J h nonce.now }
{
    if nonce.len() != 12 {
        return hash(h, &[], nonce).to_bytes();
    }
    let mut j = [0u8; 16];
    j[..12].copy_from_slice(nonce);
    store(&mut j, 12, 4, 1);
    j
}

// The cipher of J, which is added to a hash to make the tag.
fn pad(key: Key, h: Block, nonce: &[u8]) -> Block
    requires { length nonce.now ≤ max_bytes }
    ensures { result ≡ Gmac.pad key.bytes h nonce.now }
{
    Block::from_bytes(&key.encrypt(nonce_block(h, nonce)))
}

// The tag, under a nonce, of n bytes whose sum is s: s and the length, times H, plus the pad. It serves the
// layers above. The requires: the numbers of bits fit a word.
pub fn tag(key: Key, h: Block, s: Block, n: u64, nonce: &[u8]) -> Block
    requires { (n ≤ max_bytes) × (length nonce.now ≤ max_bytes) }
    ensures { result ≡ tag_of key.bytes h s n nonce.now }
{
    closed(h, s, n, 0).plus(pad(key, h, nonce))
}

// Whether two tags are the same, by one comparison. It serves the layers above. The halves of the joined differences are joined again because
// the compiler turns a comparison of (a ^ b) | (c ^ d) with 0 into two, with a jump between them (tests/ct would find it).
pub fn same(a: Block, b: Block) -> bool
    ensures { result ≡ eqb (value a) (value b) }
{
    let differ = (a.hi ^ b.hi) | (a.lo ^ b.lo);
    let folded = (differ >> 32) | (differ % 0x1_0000_0000);
    folded == 0
}
