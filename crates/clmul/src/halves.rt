// Products of halves, numbers of 32 bits, by nine integer products.
ghost use Rattle.std.specs.Prelude.{◌≡◌, ◌+◌, ◌*◌, ◌/◌, ◌%◌, ◌^◌, ◌<◌};
ghost use Rattle.clmul.specs.Carryless.{◌⊗◌};
ghost use Rattle.clmul.specs.Halves;

use std::array::from_fn;

// The four planes of a half, plane i holding every fourth bit from bit i on, moved to bit 0, and behind them the sums of them that Karatsuba's rule
// multiplies: of 0 and 1, of 2 and 3, of 0 and 2, of 1 and 3, and of all four. Also the nine products of two such.
pub type Mixtures = [u64; 9];

// Every fourth bit of a half.
const PLANE: u64 = 0x1111_1111;

// The last bits of fifteen digits to the base 16, as many as a product of two planes has.
const DIGITS: u64 = 0x0111_1111_1111_1111;

// The mixtures of the 32 low bits of x. It serves the crate.
pub fn mixed(x: u64) -> Mixtures
    ensures { result ≡ Halves.mixtures_of x }
{
    let p0 = x & PLANE;
    let p1 = (x >> 1) & PLANE;
    let p2 = (x >> 2) & PLANE;
    let p3 = (x >> 3) & PLANE;
    let p02 = p2 ^ p0;
    let p13 = p3 ^ p1;
    [p0, p1, p2, p3, p1 ^ p0, p3 ^ p2, p02, p13, p13 ^ p02]
}

// The integer product of the 32 low bits of each. The masks cost nothing: they are what a multiplication of 32 bits reads.
fn low_product(x: u64, y: u64) -> u64
    ensures { result ≡ x % 2 ^ 32 * (y % 2 ^ 32) }
{
    (x & 0xffff_ffff) * (y & 0xffff_ffff)
}

// t with the nine products of x and y added. It serves the crate.
pub fn added(t: Mixtures, x: Mixtures, y: Mixtures) -> Mixtures
    ensures { result ≡ Halves.added_to t x y }
{
    from_fn(|j| t[j] ^ low_product(x[j], y[j]))
}

// Karatsuba's rule on the used bits of three integer products, whose planes stand one bit apart.
fn joined_planes(h: u64, l: u64, m: u64) -> u64
    ensures { result ≡ Halves.karatsuba 1 (Halves.plane 15 h) (Halves.plane 15 l) (Halves.plane 15 m) }
{
    let high = h & DIGITS;
    let low = l & DIGITS;
    let mid = (m & DIGITS) ^ high ^ low;
    (high << 2) ^ ((mid << 1) ^ low)
}

// Karatsuba's rule on the products of pairs of planes, which stand two bits apart.
fn joined_pairs(h: u64, l: u64, m: u64) -> u64
    requires { (h < 2 ^ 60) × (l < 2 ^ 60) × (m < 2 ^ 60) }
    ensures { result ≡ Halves.karatsuba 2 h l m }
{
    (h << 4) ^ (((m ^ h ^ l) << 2) ^ l)
}

// The carry-less product, or the sum of such products, whose mixtures these are. It serves the crate.
pub fn unmixed(t: Mixtures) -> u64
    ensures { result ≡ Halves.unmixed t }
{
    let [p0, p1, p2, p3, p01, p23, p02, p13, all] = t;
    joined_pairs(
        joined_planes(p3, p2, p23),
        joined_planes(p1, p0, p01),
        joined_planes(p13, p02, all),
    )
}

// The carry-less product of the 32 low bits of each. It serves the crate.
pub fn half_product(x: u64, y: u64) -> u64
    ensures { result ≡ x % 2 ^ 32 ⊗ (y % 2 ^ 32) }
{
    unmixed(added([0; 9], mixed(x), mixed(y)))
}

// The carry-less square of a plane of the 32 low bits of x: in the integer square, what is not a square of a bit comes twice.
fn plane_square(x: u64) -> u64
    ensures { result ≡ Halves.plane 8 x ⊗ Halves.plane 8 x }
{
    let p = x & PLANE;
    (p * p) & DIGITS
}

// The carry-less square of the 32 low bits of x: the squares of its planes, each twice as far on as the plane. It serves the crate.
pub fn half_square(x: u64) -> u64
    ensures { result ≡ x % 2 ^ 32 ⊗ (x % 2 ^ 32) }
{
    let p0 = plane_square(x);
    let p1 = plane_square(x >> 1);
    let p2 = plane_square(x >> 2);
    let p3 = plane_square(x >> 3);
    (p3 << 6) ^ ((p2 << 4) ^ ((p1 << 2) ^ p0))
}
