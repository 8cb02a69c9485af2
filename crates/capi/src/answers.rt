// The answers of the layers below, as numbers and lent bytes.
ghost use Rattle.std.specs.Prelude.{◌≡◌, Result, MatchResult};
ghost use Rattle.std.specs.Fn.{FnOnceReturnsAtMut};
ghost use Rattle.file.specs.Clauses.{state_answer};
ghost use Rattle.file.specs.declared.causes.Cause.{Cause};
ghost use Rattle.file.specs.declared.states.State.{State};
ghost use Rattle.field.specs.declared.multiplying.Count.{Count};
ghost use Rattle.capi.specs.Bytes.{state_from};
ghost use Rattle.capi.specs.Calls.{kept, verdict_byte};
ghost use Rattle.capi.specs.Clauses.{edit_result};

use super::packing::{STATE_BYTES, decode, encode};
use field::multiplying::Count;
use file::{Cause, State, Verdict};

// The number of an answer: 0 where the work was done, else its cause's.
pub fn number<T: Drop, C: Into<u64>>(answer: Result<T, C>) -> u64
    ensures { MatchResult answer (λ _. result ≡ 0) (λ cause. C.converts cause result) }
{
    match answer {
        Ok(_) => 0,
        Err(cause) => cause.into(),
    }
}

// The byte of a check's verdict. It is the boundary's own, so it is no `From` of `Verdict`, which would stand in the file keeper's crate.
#[tactic(auto, unfolding(crate::specs::Calls::verdict_byte))]
pub fn verdict_byte(v: Verdict) -> u8
    ensures { result ≡ verdict_byte v }
{
    match v {
        Verdict::NotGenuine => 0,
        Verdict::Current => 1,
        Verdict::Stale => 2,
        Verdict::Ahead => 3,
    }
}

// A call on the state that the lent bytes hold: what it makes of the state, and its answer, are kept.
pub fn edit<F: FnOnce(&mut State) -> Result<Count, Cause>>(
    state: &mut [u8; STATE_BYTES],
    count: &mut u64,
    call: F,
) -> u64
    requires { F.IsAlwaysCallable call }
    ensures { (st : State) × (r : Result Count Cause) × FnOnceReturnsAtMut F.FnOnce call (state_from state.old) r st
        × (edit_result result state.new count.new ≡ kept (state_answer st r) state.old count.old) }
{
    let mut st = decode(state);
    keep(call(&mut st), st, state, count)
}

// What a call on a state answered, put where the caller wants it: where it was accepted, the state and its count are written; where it was
// refused, both stay as they were.
pub fn keep(
    answer: Result<Count, Cause>,
    st: State,
    state: &mut [u8; STATE_BYTES],
    count: &mut u64,
) -> u64
    ensures { edit_result result state.new count.new ≡ kept (state_answer st answer) state.old count.old }
{
    if let Ok(products) = answer {
        encode(st, state);
        *count = products.number();
    }
    number(answer)
}
