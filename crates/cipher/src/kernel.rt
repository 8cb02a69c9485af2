// Sixteen blocks at a time, on four sets of planes, one for each row of the state: lane 16c + b of set r holds the byte in row r and column c of
// block b. So a row moves to the left by turning its planes, and a column is mixed by adding whole sets.
ghost use Rattle.std.specs.Prelude.{◌≡◌, ℕ, ◌*◌, ◌/◌, ◌%◌, ◌<◌, ◌≤◌, length, take, drop};
ghost use Rattle.planes.specs.Tables.{tab, at};
ghost use Rattle.cipher.specs.Cipher.{each_block};
ghost use Rattle.cipher.specs.Clauses.{state_in};

use super::rounds::{States, ciphered, mixed_row};
use planes::{Planes, block_of, packed_row, plus, repeated_row, rotated, substituted, words};
use std::array::from_fn;

// The states of sixteen blocks, from their bytes.
fn pack(s: &[u8; 256]) -> [Planes; 4]
    ensures { (b : ℕ) → b < 16 → state_in result b ≡ take 16 (drop (16 * b) s.now) }
{
    from_fn(|r| packed_row(s, r))
}

// Sixteen states.
impl States for [Planes; 4] {
    ghost holds = { λ q b s. b < 16 → state_in q b ≡ s };

    fn sub_and_shift(self) -> [Planes; 4] {
        from_fn(|r| rotated(substituted(self[r]), 16 * (r as u32)))
    }

    fn mix_columns(self) -> [Planes; 4] {
        from_fn(|r| mixed_row(
            self[r],
            self[(r + 1) % 4],
            self[(r + 2) % 4],
            self[(r + 3) % 4],
        ))
    }

    fn add_round_key(self, k: [u8; 16]) -> [Planes; 4] {
        from_fn(|r| plus(self[r], repeated_row(k, r)))
    }
}

// The bytes of sixteen states, written over what stood there.
fn unpack(q: [Planes; 4], out: &mut [u8; 256])
    ensures { out.new ≡ tab 256 (λ i. at (state_in q (i / 16)) (i % 16)) }
{
    let a = words(q[0]);
    let b = words(q[1]);
    let c = words(q[2]);
    let d = words(q[3]);
    for i in 0..16 {
        let k = i % 8;
        out[16 * i..16 * i + 16].copy_from_slice(&block_of([a[k], b[k], c[k], d[k]], i / 8));
    }
}

// Replaces sixteen blocks by their ciphers, over the rows of a schedule. They are lent, since by value each call had two more copies of them on its
// stack; and as a slice, since a proof knows nothing of a part of a slice that is lent as an array. The requires: a schedule has a row before the
// rounds and one for the last, and the slice is sixteen blocks.
pub fn encrypt_sixteen(rows: &[[u8; 16]], blocks: &mut [u8])
    requires { (2 ≤ length rows.now) × (length blocks.old ≡ 256) }
    ensures { blocks.new ≡ each_block rows.now blocks.old }
{
    if let Some(sixteen) = blocks.as_mut_array() {
        unpack(ciphered(pack(sixteen), rows), sixteen);
    }
}
