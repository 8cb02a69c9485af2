// Bytes to planes and back: a block alone, which then stands in the lanes four times (specs/Lanes, spread), and sixteen blocks row by row.
ghost use Rattle.std.specs.Prelude.{◌≡◌, ℕ, ◌+◌, ◌*◌, ◌/◌, ◌%◌, ◌<◌, length};
ghost use Rattle.planes.specs.Tables.{tab, at};
ghost use Rattle.planes.specs.Substitution.{bit};
ghost use Rattle.planes.specs.Lanes.{lane, Shows, byte_of, spread, strided};

use super::Planes;
use super::moves::turned;
use std::array::from_fn;

// A word of eight bytes of a slice: byte p is that at the place `start` and a, b and c more for each one among p's three bits, the lowest first. The
// requires: the last of these places is in the slice. By shifts, here and in `unpacked` and `block_of`: with from_le_bytes and to_le_bytes a short
// call of GCM took 2 % longer.
fn gathered(s: &[u8], start: usize, a: usize, b: usize, c: usize) -> u64
    requires { start + a + b + c < length s.now }
    ensures { (p : ℕ) → p < 8 → byte_of result p ≡ at s.now (start + strided a b c p) }
{
    let mut n: u64 = 0;
    for p in (0..8).rev() {
        n = n * 256 + s[start + a * (p % 2) + b * (p / 2 % 2) + c * (p / 4)] as u64;
    }
    n
}

// The planes of sixteen bytes. It serves the layers above.
pub fn packed(s: [u8; 16]) -> Planes
    ensures { Shows result (spread s) }
{
    turned(Planes::from_fn(|j| gathered(&s, 4 * (j % 4), 1, 2, 0)))
}

// The words of planes: byte p of word k is that in lane 8p + k. It serves the layers above.
pub fn words(q: Planes) -> [u64; 8]
    ensures { (k p : ℕ) → k < 8 → p < 8 → byte_of (at result k) p ≡ lane q (8 * p + k) }
{
    let w = turned(q);
    [w.p0, w.p1, w.p2, w.p3, w.p4, w.p5, w.p6, w.p7]
}

// The sixteen bytes of which planes were packed. It serves the layers above.
pub fn unpacked(q: Planes) -> [u8; 16]
    ensures { result ≡ tab 16 (λ i. lane q (8 * (i % 4) + i / 4)) }
{
    let w = words(q);
    from_fn(|i| ((w[i / 4] >> (8 * (i % 4))) % 256) as u8)
}

// The planes of row r of sixteen blocks: lane 16c + b holds the byte in row r and column c of block b. It serves the layers above.
pub fn packed_row(s: &[u8], r: usize) -> Planes
    requires { (length s.now ≡ 256) × (r < 4) }
    ensures { Shows result (λ i. at s.now (16 * (i % 16) + (4 * (i / 16) + r))) }
{
    turned(Planes::from_fn(|j| gathered(s, r + 16 * j, 128, 4, 8)))
}

// A word in which each byte is filled with its bit j.
fn filled(n: u64, j: usize) -> u64
    requires { j < 8 }
    ensures { (i : ℕ) → i < 64 → bit result i ≡ bit n (8 * (i / 8) + j) }
{
    ((n >> j) & 0x0101_0101_0101_0101) * 0xff
}

// The planes of row r of one block, which stands for all sixteen. It serves the layers above.
pub fn repeated_row(s: [u8; 16], r: usize) -> Planes
    requires { r < 4 }
    ensures { Shows result (λ i. at s (4 * (i / 16) + r)) }
{
    let n = gathered(&s, r, 0, 4, 8);
    Planes::from_fn(|j| filled(n, j))
}

// One block of sixteen, from a word of each of their four rows: that block and the one eight behind it stand in these words by turns, and half says
// which of the two it is. It serves the layers above.
pub fn block_of(w: [u64; 4], half: usize) -> [u8; 16]
    requires { half < 2 }
    ensures { result ≡ tab 16 (λ i. byte_of (at w (i % 4)) (2 * (i / 4) + half)) }
{
    from_fn(|i| ((w[i % 4] >> (8 * (2 * (i / 4) + half))) % 256) as u8)
}
