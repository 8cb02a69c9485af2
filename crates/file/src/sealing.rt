// Seal and check.
#![tactic(auto, using(crate::proofs::ShapeLaws::cause_pos, crate::proofs::SlipLaws::length_slip), unfolding(refusals::specs::Refusals::first, crate::specs::Slips::seal_refusal, crate::specs::Slips::sealed, crate::specs::Slips::sealed_next, crate::specs::Slips::numbered, crate::specs::Slips::by_its_number, crate::specs::Slips::check_refusal, crate::specs::Slips::opened_with, crate::specs::Slips::fitting, crate::specs::Slips::genuine, crate::specs::Slips::checked))]

ghost use Rattle.std.specs.Prelude.{◌≡◌, ◌≤◌};
ghost use Rattle.field.specs.Field.{max_bytes};
ghost use Rattle.file.specs.Slips.{seal_refusal, sealed, by_its_number, checked, state_tag};
ghost use Rattle.file.specs.Clauses.{answer_refusal, seal_answer, check_answer};

use super::causes::Cause;
use super::slips::{Fields, SLIP_BYTES, open_for, packed};
use super::states::State;
use field::Block;
use field::hashing::MAX_BYTES;
use field::packing::store;
use gcm::tags::{same, tag};
use std::cmp::Ordering;

// What a check finds of a slip: it is not genuine; or it is, and its seal number is the last used one, a smaller or a larger. Only Current is
// the slip of the newest seal: who takes every genuine slip takes an old card too.
#[derive(Clone, Copy)]
pub enum Verdict {
    // Its length, its arm or its tag is not that of the file held.
    NotGenuine,
    // Genuine, and its number is the last used one.
    Current,
    // Genuine, and its number is smaller.
    Stale,
    // Genuine, and its number is larger.
    Ahead,
}

impl State {
    // Seals the file: the last used number rises by one, and the slip gets the new one and the file's tag under it. Refused, in this
    // order, where the state's length passes 2^61 - 1, where the slip is not 36 bytes and where no number is left; state and slip then
    // stay as they were.
    pub fn seal(&mut self, slip: &mut [u8]) -> Result<(), Cause>
        ensures { seal_answer self.new result slip.new ≡ sealed self.old slip.old }
    {
        seal_refusal(self.n, self.last, slip)?;
        let number = self.last + 1;
        let tag = self.tag_under(self.arm, number);
        slip.copy_from_slice(&packed(Fields {
            length: self.n,
            arm: self.arm,
            number,
            tag,
        }));
        self.last = number;
        Ok(())
    }

    // Whether a slip is of the file: its length and arm are the state's, and its tag is the file's under its own nonce; and if so, whether it is the
    // newest. Refused, in this order, where the state's length passes 2^61 - 1, where the slip is not 36 bytes and where its version is not
    // 1. The tags are compared by one test of all their bits.
    pub fn check(self, slip: &[u8]) -> Result<Verdict, Cause>
        ensures { check_answer result ≡ checked self slip.now }
    {
        // The fields by let .. else, as document 01 has it, and not by `?`.
        let opened = open_for(self.n, slip);
        let Ok(f) = opened else {
            return opened.and(Ok(Verdict::NotGenuine));
        };
        if f.length != self.n
            || f.arm != self.arm
            || !same(f.tag, self.tag_under(f.arm, f.number))
        {
            return Ok(Verdict::NotGenuine);
        }
        Ok(by_number(self.last, f.number))
    }

    // The state's tag under the nonce of an arm and a seal number, most significant byte first. The requires: the number of the file's
    // bits fits a word.
    fn tag_under(&self, arm: u32, number: u64) -> Block
        requires { self.now.n ≤ max_bytes }
        ensures { result ≡ state_tag self.now arm number }
    {
        let mut nonce = [0u8; 12];
        store(&mut nonce, 0, 4, arm as u64);
        store(&mut nonce, 4, 8, number);
        tag(self.key, self.h, self.s, self.n, &nonce)
    }
}

// The verdict on a genuine slip, by its number beside the last used one.
fn by_number(last: u64, number: u64) -> Verdict
    ensures { result ≡ by_its_number last number }
{
    match number.cmp(&last) {
        Ordering::Equal => Verdict::Current,
        Ordering::Less => Verdict::Stale,
        Ordering::Greater => Verdict::Ahead,
    }
}

// The refusal of a seal, if any, of a state of n bytes and a last used number.
fn seal_refusal(n: u64, last: u64, slip: &[u8]) -> Result<(), Cause>
    ensures { answer_refusal result ≡ seal_refusal n last slip.now }
{
    if n > MAX_BYTES {
        return Err(Cause::TooLong);
    }
    if slip.len() != SLIP_BYTES {
        return Err(Cause::SlipLength);
    }
    if last == u64::MAX {
        return Err(Cause::NumbersUsed);
    }
    Ok(())
}
