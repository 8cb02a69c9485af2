// Moves of bytes between lanes: every plane has its bits moved in the same way.
ghost use Rattle.std.specs.Prelude.{◌≡◌, ℕ, ◌+◌, ◌*◌, ◌/◌, ◌%◌, ◌^◌, ◌<◌, bit_and, bit_or};
ghost use Rattle.planes.specs.Substitution.{bit};
ghost use Rattle.planes.specs.Lanes.{lane, Shows, Turned};

use super::Planes;

// A word whose bits go n places to the right, those that leave it coming in at the left.
fn rotate(x: u64, n: u32) -> u64
    requires { n < 64 }
    ensures { (i : ℕ) → i < 64 → bit result i ≡ bit x ((i + n) % 64) }
{
    (x >> n) | (x << ((64 - n) % 64))
}

// Every lane gets the byte that is n lanes behind it, the last lanes those of the first. It serves the layers above.
pub fn rotated(q: Planes, n: u32) -> Planes
    requires { n < 64 }
    ensures { Shows result (λ i. lane q ((i + n) % 64)) }
{
    q.map(|x| rotate(x, n))
}

// A word whose bytes have four bits twice: those of byte p move p places, p modulo 4, so that both halves of a byte have bits p to p + 3 of it.
fn slide(x: u64) -> u64
    ensures { (i : ℕ) → i < 64 → bit result i ≡ bit x (8 * (i / 8) + (i % 4 + i / 8 % 4)) }
{
    let y = (x & 0x0000_000f_0000_000f)
        | ((x >> 1) & 0x0000_0f00_0000_0f00)
        | ((x >> 2) & 0x000f_0000_000f_0000)
        | ((x >> 3) & 0x0f00_0000_0f00_0000);
    y | (y << 4)
}

// Where each eight lanes hold four bytes twice, those of the p-th eight move p places, p modulo 4. It serves the layers above.
pub fn slid(q: Planes) -> Planes
    ensures { Shows result (λ i. lane q (8 * (i / 8) + (i % 4 + i / 8 % 4))) }
{
    q.map(|x| slide(x))
}

// Two words, of which the bits of x outside m change places with those of y in m, s places below them.
fn exchanged(x: u64, y: u64, s: u32, m: u64) -> (u64, u64)
    requires { s < 64 }
    ensures first { result.0 ≡ bit_or (bit_and x m) (bit_and (y * 2 ^ s % 2 ^ 64) (m * 2 ^ s % 2 ^ 64)) }
    ensures second { result.1 ≡ bit_or (bit_and (x / 2 ^ s) m) (bit_and y (m * 2 ^ s % 2 ^ 64)) }
{
    (
        (x & m) | ((y << s) & (m << s)),
        ((x >> s) & m) | (y & (m << s)),
    )
}

// The planes of the bytes of eight words, byte p of word k going to lane 8p + k; or the words of planes, which is the same step. Bits change places
// in pairs, whose words are one apart, then two, then four.
pub fn turned(w: Planes) -> Planes
    ensures { Turned w result }
{
    let (a0, a1) = exchanged(w.p0, w.p1, 1, 0x5555_5555_5555_5555);
    let (a2, a3) = exchanged(w.p2, w.p3, 1, 0x5555_5555_5555_5555);
    let (a4, a5) = exchanged(w.p4, w.p5, 1, 0x5555_5555_5555_5555);
    let (a6, a7) = exchanged(w.p6, w.p7, 1, 0x5555_5555_5555_5555);
    let (b0, b2) = exchanged(a0, a2, 2, 0x3333_3333_3333_3333);
    let (b1, b3) = exchanged(a1, a3, 2, 0x3333_3333_3333_3333);
    let (b4, b6) = exchanged(a4, a6, 2, 0x3333_3333_3333_3333);
    let (b5, b7) = exchanged(a5, a7, 2, 0x3333_3333_3333_3333);
    let (p0, p4) = exchanged(b0, b4, 4, 0x0f0f_0f0f_0f0f_0f0f);
    let (p1, p5) = exchanged(b1, b5, 4, 0x0f0f_0f0f_0f0f_0f0f);
    let (p2, p6) = exchanged(b2, b6, 4, 0x0f0f_0f0f_0f0f_0f0f);
    let (p3, p7) = exchanged(b3, b7, 4, 0x0f0f_0f0f_0f0f_0f0f);
    Planes {
        p0,
        p1,
        p2,
        p3,
        p4,
        p5,
        p6,
        p7,
    }
}
