// GCM (NIST SP 800-38D): encryption and decryption of texts, and GMAC, which is GCM without a text. It stands above the cipher and the field.
#![tactic(auto)]

mod counters;
pub mod tags;
mod texts;

ghost use Rattle.std.specs.Prelude.{◌≡◌};
ghost use Rattle.refusals.specs.Refusals.{first};
ghost use Rattle.gcm.specs.Answers.{gmac_refusal, gmac_output, gcm_refusal, encrypted, decrypted};
ghost use Rattle.gcm.specs.Clauses.{cause_number, answer_refusal, long_causes, encrypt_result, decrypt_result};

use cipher::Key;
use field::hashing::MAX_BYTES;
use field::summing::sum;
use tags::{hash_key, tag};
use texts::Call;

// The most bytes that a text has, by SP 800-38D, 5.2.1.1: 2^36 - 32.
const MAX_TEXT: u64 = 0xf_ffff_ffe0;

// Why a call is refused. The papers' numbers for the causes are in specs/Clauses.
#[derive(Clone, Copy)]
pub enum Cause {
    // The key is not 16 bytes.
    KeyLength,
    // The nonce is empty.
    EmptyNonce,
    // The tag is not 16 bytes.
    TagLength,
    // Text and output differ in length.
    TextLength,
    // A or the nonce passes 2^61 - 1 bytes.
    TooLong,
    // The text passes 2^36 - 32 bytes.
    TextTooLong,
    // The tag is not that of the text.
    WrongTag,
}

impl From<Cause> for u64 {
    ghost from_gives = { λ cause n. n ≡ cause_number cause };

    fn from(cause: Cause) -> u64 {
        match cause {
            Cause::KeyLength => 1,
            Cause::EmptyNonce => 9,
            Cause::TagLength => 7,
            Cause::TextLength => 7,
            Cause::TooLong => 2,
            Cause::TextTooLong => 13,
            Cause::WrongTag => 14,
        }
    }
}

// GMAC of a under a key and a nonce, written to out. Refused, in this order, where the key is not 16 bytes, where the nonce is empty,
// where out is not sixteen bytes, and where the nonce or a is longer than 2^61 - 1 bytes; out then stays as it was. The time depends
// on the lengths alone. It goes by the sum and `tag`, as the file keeper's seal does: by a `Call` it would take the stack of sixteen blocks at once.
pub fn gmac(key: &[u8], nonce: &[u8], a: &[u8], out: &mut [u8]) -> Result<(), Cause>
    ensures answer { answer_refusal result ≡ gmac_refusal key.now nonce.now a.now out.old }
    ensures output { out.new ≡ gmac_output key.now nonce.now a.now out.old }
{
    gcm_refusal(key, nonce, a, &[], &[], out)?;
    let k = Key::from_bytes(key);
    let h = hash_key(k);
    tag(k, h, sum(h, a), a.len() as u64, nonce).write(out, 0);
    Ok(())
}

// Encrypts a text under a key and a nonce: out gets the ciphertext, and tag the tag of it and of the associated data a. Refused, in this
// order, where the key is not 16 bytes, where the nonce is empty, where the tag is not 16 bytes or text and out differ in length, where the
// nonce or a is longer than 2^61 - 1 bytes, and where the text is longer than 2^36 - 32; out and tag then stay as they were. The time depends
// on the lengths alone. A nonce is used once with a key.
pub fn encrypt(
    key: &[u8],
    nonce: &[u8],
    a: &[u8],
    text: &[u8],
    out: &mut [u8],
    tag: &mut [u8],
) -> Result<(), Cause>
    ensures { encrypt_result (answer_refusal result) out.new tag.new
        ≡ encrypted key.now nonce.now a.now text.now out.old tag.old }
{
    gcm_refusal(key, nonce, a, text, out, tag)?;
    let call = Call::begin(key, nonce);
    call.turn(text, out);
    call.tag(a, out).write(tag, 0);
    Ok(())
}

// Decrypts a text under a key and a nonce: where the tag is that of the text and of the associated data a, out gets the plaintext. Refused,
// in this order, as encrypt is, and last where the tag does not fit; out then stays as it was. The text is hashed first, and nothing is
// decrypted before the tag is known to fit. The time depends on the lengths and on whether the tag fits.
pub fn decrypt(
    key: &[u8],
    nonce: &[u8],
    a: &[u8],
    text: &[u8],
    out: &mut [u8],
    tag: &[u8],
) -> Result<(), Cause>
    ensures { decrypt_result (answer_refusal result) out.new
        ≡ decrypted key.now nonce.now a.now text.now out.old tag.now }
{
    gcm_refusal(key, nonce, a, text, out, tag)?;
    let call = Call::begin(key, nonce);
    if !call.tag_fits(a, text, tag) {
        return Err(Cause::WrongTag);
    }
    call.turn(text, out);
    Ok(())
}

// The refusal that the lengths alone decide, or none. Each length that C may claim has its cause, so key and tag come as slices.
fn gcm_refusal(
    key: &[u8],
    nonce: &[u8],
    a: &[u8],
    text: &[u8],
    out: &[u8],
    tag: &[u8],
) -> Result<(), Cause>
    ensures { answer_refusal result ≡ gcm_refusal key.now nonce.now a.now text.now out.now
        tag.now }
{
    if !Key::fits(key) {
        return Err(Cause::KeyLength);
    }
    if nonce.len() == 0 {
        return Err(Cause::EmptyNonce);
    }
    if tag.len() != 16 {
        return Err(Cause::TagLength);
    }
    if text.len() != out.len() {
        return Err(Cause::TextLength);
    }
    long_refusal(nonce, a, text)
}

// The refusal of a nonce, of associated data or of a text that is too long, or none.
fn long_refusal(nonce: &[u8], a: &[u8], text: &[u8]) -> Result<(), Cause>
    ensures { answer_refusal result ≡ first (long_causes nonce.now a.now text.now) }
{
    if nonce.len() as u64 > MAX_BYTES {
        return Err(Cause::TooLong);
    }
    if a.len() as u64 > MAX_BYTES {
        return Err(Cause::TooLong);
    }
    if text.len() as u64 > MAX_TEXT {
        return Err(Cause::TextTooLong);
    }
    Ok(())
}
