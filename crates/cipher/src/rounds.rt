// The rounds of the cipher over the rows of a schedule (FIPS 197, section 5.1), on bit planes: of one state, or of several at once. A round key comes
// as bytes, and is packed where it is added.
ghost use Rattle.std.specs.Prelude.{◌≡◌, List, ℕ, ◌-◌, ◌≤◌, length};
ghost use Rattle.planes.specs.Planes.{lane, Shows, spread};
ghost use Rattle.cipher.specs.Rounds.{SubBytes, ShiftRows, mixed, MixColumns, AddRoundKey};
ghost use Rattle.cipher.specs.Cipher.{Cipher};

use planes::{Planes, doubled, packed, plus, rotated, slid, substituted, unpacked};

// One state on planes, or several, with the transformations that the rounds are made of.
pub trait States: Copy {
    // state b is s; where there is but one, whichever b
    ghost holds: { Self → ℕ → List ℕ → Type 0 };

    // The substitution box at every byte, and then row r moves r places to the left.
    fn sub_and_shift(self) -> Self
        ensures { (b : ℕ) (s : List ℕ) → holds self b s → holds result b (ShiftRows (SubBytes s)) };

    // Each column times a fixed matrix.
    fn mix_columns(self) -> Self
        ensures { (b : ℕ) (s : List ℕ) → holds self b s → holds result b (MixColumns s) };

    // A round key added.
    fn add_round_key(self, k: [u8; 16]) -> Self
        ensures { (b : ℕ) (s : List ℕ) → holds self b s → holds result b (AddRoundKey s k) };
}

// The cipher over the rows of a schedule, one row for the key added first and one for each round. The last round mixes no columns.
pub fn ciphered<S: States>(states: S, rows: &[[u8; 16]]) -> S
    requires { 2 ≤ length rows.now }
    ensures { (b : ℕ) (s : List ℕ) → S.holds states b s → S.holds result b (Cipher (length rows.now - 1) s rows.now) }
{
    let last = rows.len() - 1;
    let mut q = states.add_round_key(rows[0]);
    for row in &rows[1..last] {
        q = q.sub_and_shift().mix_columns().add_round_key(*row);
    }
    q.sub_and_shift().add_round_key(rows[last])
}

// One row of mixed columns, from that row and the three behind it.
pub fn mixed_row(a: Planes, b: Planes, c: Planes, d: Planes) -> Planes
    ensures { Shows result (λ i. mixed (lane a i) (lane b i) (lane c i) (lane d i)) }
{
    plus(plus(plus(doubled(a), plus(doubled(b), b)), c), d)
}

// One state, whose sixteen bytes, column by column, stand in the planes' lanes four times (planes/specs/Lanes, spread).
impl States for Planes {
    ghost holds = { λ q b s. Shows q (spread s) };

    fn sub_and_shift(self) -> Planes {
        slid(substituted(self))
    }

    // The row behind a lane's own is eight lanes on.
    fn mix_columns(self) -> Planes {
        mixed_row(self, rotated(self, 8), rotated(self, 16), rotated(self, 24))
    }

    fn add_round_key(self, k: [u8; 16]) -> Planes {
        plus(self, packed(k))
    }
}

// The substitution box at every byte. It serves the schedule; the rounds use the same function of planes.
pub fn sub_bytes(s: [u8; 16]) -> [u8; 16]
    ensures { result ≡ SubBytes s }
{
    unpacked(substituted(packed(s)))
}

// The cipher of one block, over the rows of a schedule.
pub fn cipher(rows: &[[u8; 16]], block: [u8; 16]) -> [u8; 16]
    requires { 2 ≤ length rows.now }
    ensures { result ≡ Cipher (length rows.now - 1) block rows.now }
{
    unpacked(ciphered(packed(block), rows))
}
