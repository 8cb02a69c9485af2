// GF(2^128) as SP 800-38D has it: blocks, products, powers, sums of bytes, GHASH, and the join of sums. This layer
// knows nothing of the cipher or of files.
#![tactic(auto)]

mod batches;
pub mod blocks;
pub mod filling;
pub mod hashing;
pub mod joining;
pub mod multiplying;
pub mod packing;
pub mod seeking;
pub mod streaming;
pub mod summing;

ghost use Rattle.std.specs.Prelude.{◌≡◌};
ghost use Rattle.field.specs.Answers.{multiply_refusal, multiply_output, ghash_refusal, ghash_output};
ghost use Rattle.field.specs.Clauses.{answer_refusal, cause_number};

pub use blocks::Block;
use hashing::{MAX_BYTES, hash};
pub use joining::{Joined, join};
use multiplying::{Count, counted_product};

// Why a call is refused. Document 01's numbers for the causes are in specs/Clauses.
#[derive(Clone, Copy)]
pub enum Cause {
    // A block or the hash key is not sixteen bytes.
    InputLength,
    // An input of GHASH, or what parts come to, passes 2^61 - 1 bytes.
    TooLong,
    // A part that isn't the last is no whole number of blocks.
    PartLength,
    // The output is not sixteen bytes.
    OutputLength,
    // The list of sums is not sixteen bytes for each length.
    SumsLength,
}

impl From<Cause> for u64 {
    ghost from_gives = { λ cause n. n ≡ cause_number cause };

    fn from(cause: Cause) -> u64 {
        match cause {
            Cause::InputLength => 1,
            Cause::TooLong => 2,
            Cause::PartLength => 5,
            Cause::OutputLength => 7,
            Cause::SumsLength => 15,
        }
    }
}

// The product of two blocks, written to out. Refused, in this order, where a or b is not sixteen bytes and where out is not; out
// then stays as it was. The time depends on no byte.
pub fn multiply(a: &[u8], b: &[u8], out: &mut [u8]) -> Result<(), Cause>
    ensures answer { answer_refusal result ≡ multiply_refusal a.now b.now out.old }
    ensures output { out.new ≡ multiply_output a.now b.now out.old }
{
    multiply_refusal(a, b, out)?;
    let product = counted_product(Block::from_bytes(a), Block::from_bytes(b), Count::none()).value;
    product.write(out, 0);
    Ok(())
}

// The refusal of the block call, where there is one.
fn multiply_refusal(a: &[u8], b: &[u8], out: &[u8]) -> Result<(), Cause>
    ensures { answer_refusal result ≡ multiply_refusal a.now b.now out.now }
{
    if a.len() != 16 {
        return Err(Cause::InputLength);
    }
    if b.len() != 16 {
        return Err(Cause::InputLength);
    }
    if out.len() != 16 {
        return Err(Cause::OutputLength);
    }
    Ok(())
}

// GHASH of a and c under the hash key h, written to out. Refused, in this order, where h is not sixteen bytes, where out is not,
// and where a or c is longer than 2^61 - 1 bytes; out then stays as it was. The time depends on the lengths alone.
pub fn ghash(h: &[u8], a: &[u8], c: &[u8], out: &mut [u8]) -> Result<(), Cause>
    ensures answer { answer_refusal result ≡ ghash_refusal h.now a.now c.now out.old }
    ensures output { out.new ≡ ghash_output h.now a.now c.now out.old }
{
    ghash_refusal(h, a, c, out)?;
    hash(Block::from_bytes(h), a, c).write(out, 0);
    Ok(())
}

// The refusal of GHASH, where there is one.
fn ghash_refusal(h: &[u8], a: &[u8], c: &[u8], out: &[u8]) -> Result<(), Cause>
    ensures { answer_refusal result ≡ ghash_refusal h.now a.now c.now out.now }
{
    if h.len() != 16 {
        return Err(Cause::InputLength);
    }
    if out.len() != 16 {
        return Err(Cause::OutputLength);
    }
    if a.len() as u64 > MAX_BYTES {
        return Err(Cause::TooLong);
    }
    if c.len() as u64 > MAX_BYTES {
        return Err(Cause::TooLong);
    }
    Ok(())
}
