// The C boundary: every call of the layers below over lent bytes. The state is 84 lent bytes (specs/Bytes). Every call answers a refusal's
// number (document 01, "Causes and their numbers") or 0. include/armfile.h is the manual for C callers.
#![tactic(auto, using(crate::proofs::CallLaws::block_over), unfolding(crate::specs::Calls::edit_call, crate::specs::Calls::start_call, crate::specs::Calls::read_call, crate::specs::Calls::replay_call, crate::specs::Calls::written))]

mod answers;
mod packing;

ghost use Rattle.std.specs.Prelude.{◌≡◌};
ghost use Rattle.cipher.specs.Aes.{encrypt_refusal, encrypt_output};
ghost use Rattle.field.specs.Field.{bytes_of, multiply_refusal, multiply_output, ghash_refusal, ghash_output};
ghost use Rattle.gcm.specs.Gcm.{gmac_refusal, gmac_output, encrypted, encrypt_result, decrypted, decrypt_result};
ghost use Rattle.file.specs.Edits;
ghost use Rattle.journal.specs.Forecasts.{forecast_at, forecasted};
ghost use Rattle.capi.specs.Bytes.{state_from};
ghost use Rattle.capi.specs.Calls.{edit_call, start_call, read_call, seal_call, check_call, replay_call, join_call};
ghost use Rattle.capi.specs.Clauses.{edit_result, read_result, seal_result, check_result, replay_result, join_result};

use answers::{edit, keep, number, verdict_byte};
use file::State;
use journal::{forecast, replay};
use packing::{
    BLOCK_BYTES, STATE_BYTES, arm_of, decode, encode, hash_key_of, last_of, length_of, sum_of,
};

// AES-128 of one block. Refused, in this order, with 1 where key or block is not 16 bytes and with 7 where out is not.
#[unsafe(no_mangle)]
pub extern "C" fn armfile_encrypt(key: &[u8], block: &[u8], out: &mut [u8]) -> u64
    ensures answer { result ≡ encrypt_refusal key.now block.now out.old }
    ensures output { out.new ≡ encrypt_output key.now block.now out.old }
{
    number(cipher::encrypt(key, block, out))
}

// The product of two blocks. Refused, in this order, with 1 where a or b is not 16 bytes and with 7 where out is not.
#[unsafe(no_mangle)]
pub extern "C" fn armfile_multiply(a: &[u8], b: &[u8], out: &mut [u8]) -> u64
    ensures answer { result ≡ multiply_refusal a.now b.now out.old }
    ensures output { out.new ≡ multiply_output a.now b.now out.old }
{
    number(field::multiply(a, b, out))
}

// GHASH of a and c under the hash key h. Refused, in this order, with 1 where h is not 16 bytes, with 7 where out is not, and with 2 where
// a or c passes 2^61 - 1 bytes.
#[unsafe(no_mangle)]
pub extern "C" fn armfile_ghash(h: &[u8], a: &[u8], c: &[u8], out: &mut [u8]) -> u64
    ensures answer { result ≡ ghash_refusal h.now a.now c.now out.old }
    ensures output { out.new ≡ ghash_output h.now a.now c.now out.old }
{
    number(field::ghash(h, a, c, out))
}

// Joins parts under the hash key h, as `field::join` does: sums holds 16 bytes a part and lengths a length each. Refused, in this order, with 1 where h is
// not 16 bytes, with 15 where sums is not 16 bytes a length, with 5 where any length but the last is not a multiple of 16, and with 2 where the total passes
// 2^61 - 1; sum and n then stay as they were.
#[unsafe(no_mangle)]
pub extern "C" fn armfile_join(
    h: &[u8],
    sums: &[u8],
    lengths: &[u64],
    sum: &mut [u8; BLOCK_BYTES],
    n: &mut u64,
) -> u64
    ensures { join_result result sum.new n.new
        ≡ join_call h.now sums.now lengths.now sum.old n.old }
{
    let joined = field::join(h, sums, lengths);
    if joined.answer.is_ok() {
        joined.sum.write(sum, 0);
        *n = joined.length;
    }
    number(joined.answer)
}

// GMAC of a under a key and a nonce. Refused, in this order, with 1 where the key is not 16 bytes, with 9 where the nonce is empty, with 7 where
// out is not 16 bytes, and with 2 where nonce or a passes 2^61 - 1 bytes.
#[unsafe(no_mangle)]
pub extern "C" fn armfile_gmac(key: &[u8], nonce: &[u8], a: &[u8], out: &mut [u8]) -> u64
    ensures answer { result ≡ gmac_refusal key.now nonce.now a.now out.old }
    ensures output { out.new ≡ gmac_output key.now nonce.now a.now out.old }
{
    number(gcm::gmac(key, nonce, a, out))
}

// GCM encryption of a text under a key, a nonce and associated data. Refused, in this order, with 1 where the key is not 16 bytes, with 9 where
// the nonce is empty, with 7 where tag is not 16 bytes or text and out differ in length, with 2 where nonce or aad passes 2^61 - 1 bytes, and
// with 13 where the text passes 2^36 - 32; out and tag then stay as they were.
#[unsafe(no_mangle)]
pub extern "C" fn armfile_gcm_encrypt(
    key: &[u8],
    nonce: &[u8],
    aad: &[u8],
    text: &[u8],
    out: &mut [u8],
    tag: &mut [u8],
) -> u64
    ensures { encrypt_result result out.new tag.new
        ≡ encrypted key.now nonce.now aad.now text.now out.old tag.old }
{
    number(gcm::encrypt(key, nonce, aad, text, out, tag))
}

// GCM decryption. Refused, in this order, as encryption is, and last with 14 where the tag is not that of text and associated data; out then
// stays as it was.
#[unsafe(no_mangle)]
pub extern "C" fn armfile_gcm_decrypt(
    key: &[u8],
    nonce: &[u8],
    aad: &[u8],
    text: &[u8],
    out: &mut [u8],
    tag: &[u8],
) -> u64
    ensures { decrypt_result result out.new
        ≡ decrypted key.now nonce.now aad.now text.now out.old tag.now }
{
    number(gcm::decrypt(key, nonce, aad, text, out, tag))
}

// The state of n fill bytes. Refused, in this order, with 1 where the key is not 16 bytes and with 2 where n passes 2^61 - 1; state and count
// then stay as they were.
#[unsafe(no_mangle)]
pub extern "C" fn armfile_start(
    key: &[u8],
    arm: u32,
    last: u64,
    n: u64,
    fill: u8,
    state: &mut [u8; STATE_BYTES],
    count: &mut u64,
) -> u64
    ensures { edit_result result state.new count.new
        ≡ start_call (record { key = key.entry.now; arm = arm; last = last; n = n; fill = fill }) state.old count.old }
{
    let started = State::start(key, arm, last, n, fill);
    keep(started.outcome, started.state, state, count)
}

// The state of a lent file. Refused, in this order, with 1 where the key is not 16 bytes and with 2 where the file passes 2^61 - 1 bytes; the
// lent state then stays as it was.
#[unsafe(no_mangle)]
pub extern "C" fn armfile_read(
    key: &[u8],
    arm: u32,
    last: u64,
    file: &[u8],
    state: &mut [u8; STATE_BYTES],
) -> u64
    ensures { read_result result state.new ≡ read_call (record { key = key.entry.now; arm = arm; last = last; file = file.now })
        state.old }
{
    let mut none = 0u64;
    let held = State::read(key, arm, last, file);
    keep(held.outcome, held.state, state, &mut none)
}

// Bytes p to p + l - 1 become new; old and new are of l bytes each. Refused as `State::change` is; state and count then stay as they were.
#[unsafe(no_mangle)]
pub extern "C" fn armfile_change(
    state: &mut [u8; STATE_BYTES],
    p: u64,
    old: &[u8],
    new: &[u8],
    count: &mut u64,
) -> u64
    ensures { edit_result result state.new count.new
        ≡ edit_call state.old (Edits.change p old.now new.now) count.old }
{
    edit(state, count, |st| st.change(p, old, new))
}

// The given bytes go after the last. Refused as `State::append` is; state and count then stay as they were.
#[unsafe(no_mangle)]
pub extern "C" fn armfile_append(
    state: &mut [u8; STATE_BYTES],
    bytes: &[u8],
    count: &mut u64,
) -> u64
    ensures { edit_result result state.new count.new
        ≡ edit_call state.old (Edits.append bytes.now) count.old }
{
    edit(state, count, |st| st.append(bytes))
}

// The given bytes go before the first. Refused as `State::prepend` is; state and count then stay as they were.
#[unsafe(no_mangle)]
pub extern "C" fn armfile_prepend(
    state: &mut [u8; STATE_BYTES],
    bytes: &[u8],
    count: &mut u64,
) -> u64
    ensures { edit_result result state.new count.new
        ≡ edit_call state.old (Edits.prepend bytes.now) count.old }
{
    edit(state, count, |st| st.prepend(bytes))
}

// The given bytes leave the front. Refused as `State::drop_front` is; state and count then stay as they were.
#[unsafe(no_mangle)]
pub extern "C" fn armfile_drop_front(
    state: &mut [u8; STATE_BYTES],
    bytes: &[u8],
    count: &mut u64,
) -> u64
    ensures { edit_result result state.new count.new
        ≡ edit_call state.old (Edits.drop_front bytes.now) count.old }
{
    edit(state, count, |st| st.drop_front(bytes))
}

// The given bytes leave the end. Refused as `State::cut_tail` is; state and count then stay as they were.
#[unsafe(no_mangle)]
pub extern "C" fn armfile_cut_tail(
    state: &mut [u8; STATE_BYTES],
    bytes: &[u8],
    count: &mut u64,
) -> u64
    ensures { edit_result result state.new count.new
        ≡ edit_call state.old (Edits.cut_tail bytes.now) count.old }
{
    edit(state, count, |st| st.cut_tail(bytes))
}

// Seals the file: the last used number rises by one, and the slip gets the new one and the file's tag under it. Refused as `State::seal`
// is; state and slip then stay as they were.
#[unsafe(no_mangle)]
pub extern "C" fn armfile_seal(state: &mut [u8; STATE_BYTES], slip: &mut [u8]) -> u64
    ensures { seal_result result state.new slip.new ≡ seal_call state.old slip.old }
{
    let mut st = decode(state);
    let answer = st.seal(slip);
    if answer.is_ok() {
        encode(st, state);
    }
    number(answer)
}

// The file's length in bytes, as the state holds it.
#[unsafe(no_mangle)]
pub extern "C" fn armfile_length(state: &[u8; STATE_BYTES]) -> u64
    ensures { result ≡ (state_from state.now).n }
{
    length_of(state)
}

// The arm number, as the state holds it.
#[unsafe(no_mangle)]
pub extern "C" fn armfile_arm(state: &[u8; STATE_BYTES]) -> u32
    ensures { result ≡ (state_from state.now).arm }
{
    arm_of(state)
}

// The last used seal number, as the state holds it.
#[unsafe(no_mangle)]
pub extern "C" fn armfile_last(state: &[u8; STATE_BYTES]) -> u64
    ensures { result ≡ (state_from state.now).last }
{
    last_of(state)
}

// The running sum of the file, as the state holds it. It is written where it goes, and no copy of it stays on the stack.
#[unsafe(no_mangle)]
pub extern "C" fn armfile_sum(state: &[u8; STATE_BYTES], out: &mut [u8; BLOCK_BYTES])
    ensures { out.new ≡ bytes_of (state_from state.now).s }
{
    sum_of(state).write(out, 0);
}

// The hash key H, as the state holds it. It is a secret, as the key is, and written where it goes, as the sum is.
#[unsafe(no_mangle)]
pub extern "C" fn armfile_hash_key(state: &[u8; STATE_BYTES], out: &mut [u8; BLOCK_BYTES])
    ensures { out.new ≡ bytes_of (state_from state.now).h }
{
    hash_key_of(state).write(out, 0);
}

// What a check finds of a slip: the verdict is 0 for not genuine, 1 for current, 2 for stale and 3 for ahead. Refused as `State::check` is; the
// verdict then stays as it was.
#[unsafe(no_mangle)]
pub extern "C" fn armfile_check(state: &[u8; STATE_BYTES], slip: &[u8], verdict: &mut u8) -> u64
    ensures { check_result result verdict.new ≡ check_call state.now slip.now verdict.old }
{
    let answer = decode(state).check(slip);
    if let Ok(found) = answer {
        *verdict = verdict_byte(found);
    }
    number(answer)
}

// Applies a journal's records to the state, in order, until one is refused, as `journal::replay` does. Refused, in this order, with 2 and with 10 as
// a whole; then for each record with 10, 11, 12 and as its edit is. State, count and offset are written always: they are those of the records
// before the refused one.
#[unsafe(no_mangle)]
pub extern "C" fn armfile_replay(
    state: &mut [u8; STATE_BYTES],
    journal: &[u8],
    count: &mut u64,
    offset: &mut u64,
) -> u64
    ensures { replay_result result state.new count.new offset.new ≡ replay_call state.old journal.now }
{
    let mut st = decode(state);
    let replayed = replay(&mut st, journal);
    encode(st, state);
    *count = replayed.count;
    *offset = replayed.offset;
    number(replayed.answer)
}

// Forecasts what armfile_replay will do of a journal to a state of n bytes, as `journal::forecast` does, from the heads of the records alone: its
// refusal and offset, the most that it will count, and the greatest length on the way. All three are written always: they are those of the records
// before the refused one.
#[unsafe(no_mangle)]
pub extern "C" fn armfile_forecast(
    n: u64,
    journal: &[u8],
    bound: &mut u64,
    greatest: &mut u64,
    offset: &mut u64,
) -> u64
    ensures { forecast_at bound.new greatest.new result offset.new ≡ forecasted n journal.now }
{
    let told = forecast(n, journal);
    *bound = told.bound;
    *greatest = told.greatest;
    *offset = told.offset;
    number(told.answer)
}
