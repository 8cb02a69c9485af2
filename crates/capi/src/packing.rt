// The state as 84 bytes and back, in document 01's order (specs/Bytes).
#![tactic(auto, unfolding(crate::specs::Bytes::state_from))]

ghost use Rattle.std.specs.Prelude.{◌≡◌};
ghost use Rattle.capi.specs.Bytes.{packed_state, state_from};

use cipher::Key;
use field::Block;
use field::packing::{number_at, store};
use file::State;

// How many bytes hold a state.
pub const STATE_BYTES: usize = 84;

// How many bytes hold a block.
pub const BLOCK_BYTES: usize = 16;

// The state that the bytes hold.
pub fn decode(b: &[u8; STATE_BYTES]) -> State
    ensures { result ≡ state_from b.now }
{
    State {
        key: Key::from_bytes(&b[..16]),
        h: hash_key_of(b),
        i: Block::load(0, b, 2),
        s: sum_of(b),
        n: length_of(b),
        arm: arm_of(b),
        last: last_of(b),
    }
}

// The file's length in the state that the bytes hold. Each field that an export gives has its reader, which `decode` takes too.
pub fn length_of(b: &[u8; STATE_BYTES]) -> u64
    ensures { result ≡ (state_from b.now).n }
{
    number_at(0, b, 64, 8)
}

// The arm number there.
pub fn arm_of(b: &[u8; STATE_BYTES]) -> u32
    ensures { result ≡ (state_from b.now).arm }
{
    number_at(0, b, 72, 4) as u32
}

// The last used seal number there.
pub fn last_of(b: &[u8; STATE_BYTES]) -> u64
    ensures { result ≡ (state_from b.now).last }
{
    number_at(0, b, 76, 8)
}

// The hash key there.
pub fn hash_key_of(b: &[u8; STATE_BYTES]) -> Block
    ensures { result ≡ (state_from b.now).h }
{
    Block::load(0, b, 1)
}

// The file's sum there.
pub fn sum_of(b: &[u8; STATE_BYTES]) -> Block
    ensures { result ≡ (state_from b.now).s }
{
    Block::load(0, b, 3)
}

// The bytes of a state, written over all that stood there.
pub fn encode(st: State, out: &mut [u8; STATE_BYTES])
    ensures { out.new ≡ packed_state st }
{
    out[..16].copy_from_slice(&st.key.bytes);
    st.h.write(out, 16);
    st.i.write(out, 32);
    st.s.write(out, 48);
    store(out, 64, 8, st.n);
    store(out, 72, 4, st.arm as u64);
    store(out, 76, 8, st.last);
}
