// Parts of one file joined under one H: from the parts' sums and lengths the sum and the length of the whole, without reading a byte of them. Lengths are
// public numbers, so branches on them are fine.
ghost use Rattle.std.specs.Prelude.{◌≡◌, ◌*◌, ◌%◌, ◌≤◌, ◌<◌, MatchOption, IfOk, length, not, eqb};
ghost use Rattle.std.specs.List.{list_any};
ghost use Rattle.field.specs.Parts;
ghost use Rattle.field.specs.Parts.{join_refusal, joined_sum, parts_of, total_of};
ghost use Rattle.field.specs.Answers.{max_bytes};
ghost use Rattle.field.specs.Clauses.{answer_refusal, join_answer};

use super::Cause;
use super::blocks::Block;
use super::hashing::MAX_BYTES;
use super::multiplying::Count;
use super::seeking::times_power;
use super::summing::blocks;

// The sum and the length of the whole, those of the empty file where the join is refused, and the answer. It is no Result as a whole, since a refused join
// gives a sum and a length too (document 02, Q-6).
#[derive(Clone, Copy)]
pub struct Joined {
    pub sum: Block,
    pub length: u64,
    pub answer: Result<(), Cause>,
}

// Joins parts: sums holds sixteen bytes a part, one part behind the other, and lengths a length each. Refused, in this order, where h is not sixteen bytes,
// where sums is not sixteen bytes a length, where any length but the last is not a multiple of 16, and where the total passes 2^61 - 1. One multiplication
// by a power of H for each part; the time depends on the lengths alone.
pub fn join(h: &[u8], sums: &[u8], lengths: &[u64]) -> Joined
    ensures { join_answer result ≡ Parts.joined h.now sums.now lengths.now }
{
    match joined_length(h, sums, lengths) {
        Err(cause) => Joined {
            sum: Block::ZERO,
            length: 0,
            answer: Err(cause),
        },
        Ok(length) => Joined {
            sum: joined_sum(Block::from_bytes(h), sums, lengths),
            length,
            answer: Ok(()),
        },
    }
}

// The length of the whole, or the refusal of the join.
fn joined_length(h: &[u8], sums: &[u8], lengths: &[u64]) -> Result<u64, Cause>
    ensures refusal { answer_refusal result ≡ join_refusal h.now sums.now lengths.now }
    ensures length { IfOk result (λ n. n ≡ total_of lengths.now) }
{
    if h.len() != 16 {
        return Err(Cause::InputLength);
    }
    // 16 times the number of lengths might not fit a word
    if sums.len() % 16 != 0 {
        return Err(Cause::SumsLength);
    }
    if sums.len() / 16 != lengths.len() {
        return Err(Cause::SumsLength);
    }
    if unaligned(lengths) {
        return Err(Cause::PartLength);
    }
    total(lengths).ok_or(Cause::TooLong)
}

// Whether any length but the last is not a multiple of 16.
fn unaligned(lengths: &[u64]) -> bool
    ensures { result ≡ Parts.unaligned lengths.now }
{
    match lengths {
        [] => false,
        [front @ .., _] => any_partial(front),
    }
}

// Whether any length is not a multiple of 16.
fn any_partial(lengths: &[u64]) -> bool
    ensures { result ≡ list_any (λ n. not (eqb (n % 16) 0)) lengths.now }
{
    lengths.iter().any(|n| n % 16 != 0)
}

// The total of the lengths, and none where it passes 2^61 - 1: no sum wraps, whatever the lengths are.
fn total(lengths: &[u64]) -> Option<u64>
    ensures { MatchOption result (max_bytes < total_of lengths.now) (λ n. (n ≡ total_of lengths.now) × (n ≤ max_bytes)) }
{
    let mut sum: u64 = 0;
    for &n in lengths {
        if n > MAX_BYTES - sum {
            return None;
        }
        sum += n;
    }
    Some(sum)
}

// The sum of the whole, from the front: what is joined so far goes times H to the blocks of the next part, whose sum is added. The requires: each part
// has its sum.
fn joined_sum(h: Block, sums: &[u8], lengths: &[u64]) -> Block
    requires { length sums.now ≡ 16 * length lengths.now }
    ensures { result ≡ joined_sum h (parts_of sums.now 0 lengths.now) }
{
    let mut sum = Block::ZERO;
    for i in 0..lengths.len() {
        let k = blocks(lengths[i]);
        let front = times_power(sum, h, k, Count::none());
        sum = front.value.plus(Block::load(0, sums, i));
    }
    sum
}
