// The slip: 36 bytes that say which file an arm held.
#![tactic(auto, using(crate::proofs::SlipLaws::slip_parts, field::proofs::Bytes::number_lt), unfolding(refusals::specs::Refusals::first, crate::specs::Slips::opened_with, crate::specs::Slips::opening, crate::specs::Slips::open_causes, crate::specs::Slips::check_refusal))]

ghost use Rattle.std.specs.Prelude.{◌≡◌, ◌<◌, ◌^◌};
ghost use Rattle.field.specs.Field.{value};
ghost use Rattle.file.specs.Slips.{packed_slip, opening, opened_with, check_refusal};
ghost use Rattle.file.specs.Clauses.{opened_of};

use super::causes::Cause;
use field::Block;
use field::hashing::MAX_BYTES;
use field::packing::{number_at, store};

// The bytes of a slip.
pub const SLIP_BYTES: usize = 36;

// A slip's first word is its version, of 3 bits, and then its length, of 61: what the version is multiplied by.
const VERSION: u64 = 0x2000_0000_0000_0000;

// A slip's fields but its version, which is 1.
#[derive(Clone, Copy)]
pub struct Fields {
    pub length: u64,
    pub arm: u32,
    pub number: u64,
    pub tag: Block,
}

// Opens a slip for a state of n bytes: refused with 2 where n passes 2^61 - 1 before all else, then as `open` refuses.
pub fn open_for(n: u64, slip: &[u8]) -> Result<Fields, Cause>
    ensures { opened_of result ≡ opened_with (check_refusal n slip.now) slip.now }
{
    if n > MAX_BYTES {
        return Err(Cause::TooLong);
    }
    open(slip)
}

// Opens a slip into its fields. Refused, in this order, where it is not 36 bytes and where its version is not 1.
fn open(slip: &[u8]) -> Result<Fields, Cause>
    ensures { opened_of result ≡ opening slip.now }
{
    if slip.len() != SLIP_BYTES {
        return Err(Cause::SlipLength);
    }
    let head = number_at(0, slip, 0, 8);
    let version = head / VERSION;
    if version != 1 {
        return Err(Cause::SlipVersion);
    }
    let arm = number_at(0, slip, 8, 4) as u32;
    let number = number_at(0, slip, 12, 8);
    let tag = Block::from_words(number_at(0, slip, 20, 8), number_at(0, slip, 28, 8));
    Ok(Fields {
        length: head % VERSION,
        arm,
        number,
        tag,
    })
}

// A slip of version 1. The requires: the length has room in its 61 bits.
pub fn packed(f: Fields) -> [u8; SLIP_BYTES]
    requires { f.length < 2 ^ 61 }
    ensures { result ≡ packed_slip f.length f.arm f.number (value f.tag) }
{
    let mut slip = [0u8; SLIP_BYTES];
    store(&mut slip, 0, 8, VERSION + f.length);
    store(&mut slip, 8, 4, f.arm as u64);
    store(&mut slip, 12, 8, f.number);
    store(&mut slip, 20, 8, f.tag.hi);
    store(&mut slip, 28, 8, f.tag.lo);
    slip
}
