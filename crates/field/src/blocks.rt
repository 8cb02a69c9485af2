// Blocks: 16 bytes as two big-endian words.
ghost use Rattle.std.specs.Prelude.{◌≡◌, ◌++◌, ◌+◌, ◌*◌, ◌≤◌, ◌<◌, ◌^◌, length, replicate};
ghost use Rattle.std.proofs.lemmas.List.Edits.{sets};
ghost use Rattle.field.specs.Blocks.{◌⊕◌, block, block_at, bytes_of};

use super::packing::{number_at, store, word_at};

// A block. The leftmost bit, of weight 2^63 in hi, is the coefficient of x^0.
#[derive(Clone, Copy)]
pub struct Block {
    pub hi: u64,
    pub lo: u64,
}

impl Block {
    // The field's one: byte 80 (hexadecimal) followed by fifteen zero bytes.
    pub const ONE: Block = Block {
        hi: 0x8000_0000_0000_0000,
        lo: 0,
    };

    pub const ZERO: Block = Block { hi: 0, lo: 0 };

    // The block of two words. It serves the layers above. Its name tells a word's place, as a `From` of two words would not.
    pub fn from_words(hi: u64, lo: u64) -> Block
        ensures { result ≡ block (hi * 2 ^ 64 + lo) }
    {
        Block { hi, lo }
    }

    // Block i of lead zero bytes followed by s; past the end stand zero bytes. It serves the layers above.
    // A block that lies whole in s is read word by word, and one past its end not at all; what is left is read byte by byte.
    // The requires: no place that is read may pass the largest index.
    pub fn load(lead: usize, s: &[u8], i: usize) -> Block
        requires { 16 * i + 16 < 2 ^ 64 }
        ensures { result ≡ block_at (replicate lead 0 ++ s.now) i }
    {
        let from = 16 * i;
        if lead <= from {
            let at = from - lead;
            if s.len() <= at {
                return Block::ZERO;
            }
            if 16 <= s.len() - at {
                let hi = word_at(s, at);
                let lo = word_at(s, at + 8);
                return Block { hi, lo };
            }
        }
        let hi = number_at(lead, s, from, 8);
        let lo = number_at(lead, s, from + 8, 8);
        Block { hi, lo }
    }

    // The first sixteen bytes of s, padded with zero bytes. It serves the layers above.
    pub fn from_bytes(s: &[u8]) -> Block
        ensures { result ≡ block_at s.now 0 }
    {
        Block::load(0, s, 0)
    }

    // The sum: exclusive or of the words. It serves the layers above. A method, and no operator, as the product is none: blocks are no words.
    pub fn plus(self, other: Block) -> Block
        ensures { result ≡ self ⊕ other }
    {
        Block {
            hi: self.hi ^ other.hi,
            lo: self.lo ^ other.lo,
        }
    }

    // Writes the sixteen bytes from place at on. It serves the layers above. The requires: the bytes have room in out.
    pub fn write(self, out: &mut [u8], at: usize)
        requires { at + 16 ≤ length out.old }
        ensures { out.new ≡ sets out.old at (bytes_of self) }
    {
        out[at..at + 8].copy_from_slice(&self.hi.to_be_bytes());
        out[at + 8..at + 16].copy_from_slice(&self.lo.to_be_bytes());
    }

    // The sixteen bytes. It serves the layers above. A method, as the library's `to_be_bytes` of a word: the name tells what a `From` would leave open.
    pub fn to_bytes(self) -> [u8; 16]
        ensures { result ≡ bytes_of self }
    {
        let mut out = [0u8; 16];
        self.write(&mut out, 0);
        out
    }
}
