// Bytes as eight bit planes, 64 bytes at a time: the substitution box of AES, products by x, sums and moves of bytes, each on all bytes at once
// and by gates alone, with no table, no branch and no address that depends on a byte. It knows nothing of the cipher, and all of it serves the
// layers above.
#![tactic(auto)]

ghost use Rattle.std.specs.Prelude.{ℕ, ◌<◌};
ghost use Rattle.planes.specs.Tables.{at};
ghost use Rattle.planes.specs.Lanes.{planes};

mod circuits;
mod moves;
mod packing;

pub use circuits::{doubled, plus, substituted};
pub use moves::{rotated, slid};
pub use packing::{block_of, packed, packed_row, repeated_row, unpacked, words};

// Plane j holds bit j of 64 bytes: bit i of p0 to p7 is the byte in lane i.
#[derive(Clone, Copy)]
pub struct Planes {
    pub p0: u64,
    pub p1: u64,
    pub p2: u64,
    pub p3: u64,
    pub p4: u64,
    pub p5: u64,
    pub p6: u64,
    pub p7: u64,
}

impl Planes {
    // Plane j is what f gives for j.
    fn from_fn<F: Fn(usize) -> u64>(f: F) -> Planes
        requires { (j : ℕ) → j < 8 → F.pre f j }
        ensures { (j : ℕ) → j < 8 → F.post f j (at (planes result) j) }
    {
        Planes {
            p0: f(0),
            p1: f(1),
            p2: f(2),
            p3: f(3),
            p4: f(4),
            p5: f(5),
            p6: f(6),
            p7: f(7),
        }
    }

    // What f makes of every plane.
    fn map<F: Fn(u64) -> u64>(self, f: F) -> Planes
        requires { F.IsAlwaysCallable f }
        ensures { (j : ℕ) → j < 8 → F.post f (at (planes self) j) (at (planes result) j) }
    {
        Planes {
            p0: f(self.p0),
            p1: f(self.p1),
            p2: f(self.p2),
            p3: f(self.p3),
            p4: f(self.p4),
            p5: f(self.p5),
            p6: f(self.p6),
            p7: f(self.p7),
        }
    }
}
