// What encryption and decryption have in common: how a call begins, the text as both turn it, and its tag.
ghost use Rattle.std.specs.Prelude.{◌≡◌, true, ◌≤◌, ◌^◌, length};
ghost use Rattle.cipher.specs.Aes.{key_fits};
ghost use Rattle.field.specs.Field.{bytes_of, max_bytes};
ghost use Rattle.gcm.specs.Gmac.{hash_key, J};
ghost use Rattle.gcm.specs.Clauses.{KeyAndNonce};
ghost use Rattle.gcm.specs.Authenticated.{tag_bytes, turned, tag_of_text, equal};

use super::counters::Schedule;
use super::tags::{nonce_block, same};
use cipher::Key;
use field::Block;
use field::hashing::hash;
use std::marker::Model;

// A call that has begun: its key's schedule, its nonce, which is kept for the clauses, the hash key H and J.
#[derive(Drop)]
pub struct Call<'a> {
    schedule: Schedule,
    nonce: &'a [u8],
    h: Block,
    j: [u8; 16],
}

// To the clauses it is its key and its nonce.
impl<'a> Model for Call<'a> {
    ghost Value = { KeyAndNonce };

    ghost view = { λ c. record { key = c.schedule.key.bytes; nonce = c.nonce.now } };

    ghost invariant = { λ c. (c.h ≡ hash_key c.schedule.key.bytes) × (c.j ≡ J c.h c.nonce.now) };
}

impl<'a> Call<'a> {
    // Begins a call. It serves the crate. The requires: the slice is a key, and the number of the nonce's bits fits a word.
    pub fn begin(key: &[u8], nonce: &'a [u8]) -> Call<'a>
        requires { (key_fits key.now ≡ true) × (length nonce.now ≤ max_bytes) }
        ensures { result ≡ record { key = key.now; nonce = nonce.now } }
    {
        let schedule = Schedule::new(Key::from_bytes(key));
        let h = schedule.ciphered([0u8; 16]);
        let j = nonce_block(h, nonce);
        Call {
            schedule,
            nonce,
            h,
            j,
        }
    }

    // The text as GCM turns it, written to out: the ciphertext of a plaintext, and the other way round. It serves the crate. The requires: out is
    // as long as the text, which has at most as many blocks as a counter has values.
    pub fn turn(&self, text: &[u8], out: &mut [u8])
        requires { (length text.now ≤ 2 ^ 36) × (length out.old ≡ length text.now) }
        ensures { out.new ≡ turned self.now.key self.now.nonce text.now }
    {
        self.schedule.gctr(self.j, text, out);
    }

    // The tag of a ciphertext c and associated data a. It serves the crate. The requires: the numbers of bits fit a word.
    pub fn tag(&self, a: &[u8], c: &[u8]) -> Block
        requires { (length a.now ≤ max_bytes) × (length c.now ≤ max_bytes) }
        ensures { bytes_of result ≡ tag_of_text self.now.key self.now.nonce c.now a.now }
    {
        hash(self.h, a, c).plus(self.schedule.ciphered(self.j))
    }

    // Whether a tag is that of a ciphertext c and associated data a. It serves the crate. The requires: it has the length of one, and those of the
    // tag.
    pub fn tag_fits(&self, a: &[u8], c: &[u8], tag: &[u8]) -> bool
        requires { (length tag.now ≡ tag_bytes) × (length a.now ≤ max_bytes) × (length c.now ≤ max_bytes) }
        ensures { result ≡ equal tag.now (tag_of_text self.now.key self.now.nonce c.now a.now) }
    {
        same(Block::from_bytes(tag), self.tag(a, c))
    }
}
