// The state that the controller holds in place of the file.
#![tactic(auto, using(crate::proofs::ShapeLaws::cause_pos), unfolding(refusals::specs::Refusals::first, crate::specs::States::begin_refusal, crate::specs::States::begun_with, crate::specs::States::state_of, crate::specs::States::zero_state, crate::specs::States::started, crate::specs::States::read_file))]

ghost use Rattle.std.specs.Prelude.{◌≡◌, ℕ};
ghost use Rattle.field.specs.Field.{counted};
ghost use Rattle.gcm.specs.Gcm.{hash_key};
ghost use Rattle.file.specs.States.{refused_with, zero_state, state_of, begin_refusal, begun_with, started, read_file};
ghost use Rattle.file.specs.Clauses.{cause_number, answer_refusal, state_answer};

use super::causes::Cause;
use cipher::Key;
use field::Block;
use field::filling::blank_sum;
use field::hashing::MAX_BYTES;
use field::multiplying::{Count, Counted};
use field::seeking::companion;
use field::summing::sum;
use gcm::tags::hash_key;

// Document 01, "What the controller holds". It may arrive with any field values.
#[derive(Clone, Copy)]
pub struct State {
    pub key: Key,
    // The hash key H and its companion I.
    pub h: Block,
    pub i: Block,
    // The running sum S of the file, and the file's length in bytes.
    pub s: Block,
    pub n: u64,
    pub arm: u32,
    // The last used seal number.
    pub last: u64,
}

// What start and read give: a state in either case, since document 01 has a refused one be all zeros, and the count of products or the refusal.
#[derive(Clone, Copy)]
pub struct Answered {
    pub state: State,
    pub outcome: Result<Count, Cause>,
}

impl State {
    // The state of n fill bytes, and the count of the products of its sum. Refused with 1 where the key is not 16 bytes, with 2 where n passes
    // 2^61 - 1, and then all zeros.
    pub fn start(key: &[u8], arm: u32, last: u64, n: u64, fill: u8) -> Answered
        ensures { state_answer result.state result.outcome ≡ started (record { key = key.entry.now; arm = arm; last = last; n = n; fill = fill }) }
    {
        begun(key, arm, last, n, |h| blank_sum(h, fill, n, Count::none()))
    }

    // The state of a lent file. Refused with 1 where the key is not 16 bytes, with 2 where the file passes 2^61 - 1 bytes, and then all zeros.
    pub fn read(key: &[u8], arm: u32, last: u64, file: &[u8]) -> Answered
        ensures { state_answer result.state result.outcome ≡ read_file (record { key = key.entry.now; arm = arm; last = last; file = file.now }) }
    {
        let n = file.len() as u64;
        begun(key, arm, last, n, |h| {
            let value = sum(h, file);
            let count = Count::none();
            Counted { value, count }
        })
    }
}

// A start or read of a file of n bytes: refused, or the state whose sum is what `summed` makes of the hash key, with the count of its products. The
// ensures: where that can only be x with the count c.
fn begun<F: FnOnce(Block) -> Counted>(
    key: &[u8],
    arm: u32,
    last: u64,
    n: u64,
    summed: F,
) -> Answered
    requires { F.IsAlwaysCallable summed }
    ensures { (x : Block) (c : ℕ) → ((s : Counted) → F.post summed (hash_key key.now) s → s ≡ counted x c)
        → state_answer result.state result.outcome ≡ begun_with (begin_refusal key.now n) (state_of key.now x n arm last) c }
{
    if let Err(cause) = begin_refusal(key, n) {
        return refused(cause);
    }
    let key = Key::from_bytes(key);
    let h = hash_key(key);
    let sum = summed(h);
    Answered {
        state: State {
            key,
            h,
            i: companion(h),
            s: sum.value,
            n,
            arm,
            last,
        },
        outcome: Ok(sum.count),
    }
}

// The refusal of start and read, if any, for a file of n bytes.
fn begin_refusal(key: &[u8], n: u64) -> Result<(), Cause>
    ensures { answer_refusal result ≡ begin_refusal key.now n }
{
    if !Key::fits(key) {
        return Err(Cause::KeyLength);
    }
    if n > MAX_BYTES {
        return Err(Cause::TooLong);
    }
    Ok(())
}

// What a refused start or read gives: the state of all zeros.
fn refused(cause: Cause) -> Answered
    ensures { state_answer result.state result.outcome ≡ refused_with zero_state (cause_number cause) }
{
    Answered {
        state: State {
            key: Key { bytes: [0; 16] },
            h: Block::ZERO,
            i: Block::ZERO,
            s: Block::ZERO,
            n: 0,
            arm: 0,
            last: 0,
        },
        outcome: Err(cause),
    }
}
