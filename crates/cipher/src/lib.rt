// AES encryption of blocks (FIPS 197). This layer knows nothing of the field or of files.
#![tactic(auto)]

mod batches;
mod kernel;
mod keys;
mod rounds;
mod schedule;

ghost use Rattle.std.specs.Prelude.{◌≡◌};
ghost use Rattle.cipher.specs.Answers.{encrypt_refusal, encrypt_output};
ghost use Rattle.cipher.specs.Clauses.{cause_number, answer_refusal};

pub use batches::encrypt_blocks;
pub use keys::{Key, ROWS};

// Why a block call is refused. Document 01's numbers for the causes are in specs/Clauses.
#[derive(Clone, Copy)]
pub enum Cause {
    // Key or block is not 16 bytes.
    InputLength,
    // The output is not 16 bytes.
    OutputLength,
}

impl From<Cause> for u64 {
    ghost from_gives = { λ cause n. n ≡ cause_number cause };

    fn from(cause: Cause) -> u64 {
        match cause {
            Cause::InputLength => 1,
            Cause::OutputLength => 7,
        }
    }
}

// Encrypts one block. Refused, in this order, where key or block is not 16 bytes and where the output is not; the output then
// stays as it was. The time depends on no byte.
pub fn encrypt(key: &[u8], block: &[u8], out: &mut [u8]) -> Result<(), Cause>
    ensures answer { answer_refusal result ≡ encrypt_refusal key.now block.now out.old }
    ensures output { out.new ≡ encrypt_output key.now block.now out.old }
{
    encrypt_refusal(key, block, out)?;
    out.copy_from_slice(&Key::from_bytes(key).encrypt(*block.as_array().unwrap()));
    Ok(())
}

// The refusal of the block call, where there is one.
fn encrypt_refusal(key: &[u8], block: &[u8], out: &[u8]) -> Result<(), Cause>
    ensures { answer_refusal result ≡ encrypt_refusal key.now block.now out.now }
{
    if !Key::fits(key) {
        return Err(Cause::InputLength);
    }
    if block.len() != 16 {
        return Err(Cause::InputLength);
    }
    if out.len() != 16 {
        return Err(Cause::OutputLength);
    }
    Ok(())
}
