// Horner's rule sixteen blocks at a time: the blocks of a batch are multiplied by the powers of H from H^16 down to H^1.
ghost use Rattle.std.specs.Prelude.{◌≡◌, ℕ, ◌+◌, ◌-◌, ◌*◌, ◌≤◌, ◌<◌, length, get_or, drop};
ghost use Rattle.field.specs.Blocks.{zero_block};
ghost use Rattle.field.specs.Powers.{power};
ghost use Rattle.field.specs.Ghash.{Yᵢ};
ghost use Rattle.field.specs.Clauses.{PowersIn};

use super::blocks::Block;
use super::multiplying::{Count, counted_product, reduced, squared};
use super::packing::word_at;
use clmul::sixteen::{Numbers, Table};
use std::array::from_fn;

// The powers of h from h^16 down to h^1: an even power is a square, and the odd one behind it the square times h.
fn powers(h: Block) -> [Block; 16]
    ensures { (n : ℕ) → n < 16 → get_or result n zero_block ≡ power h (16 - n) }
{
    let mut p = [h; 16];
    for k in 1..8 {
        let even = squared(p[16 - k]);
        let odd = counted_product(even, h, Count::none()).value;
        p[16 - 2 * k] = even;
        p[15 - 2 * k] = odd;
    }
    p[0] = squared(p[8]);
    p
}

// t becomes the table of the powers of h from h^16 down to h^1.
fn fill_powers(h: Block, t: &mut Table)
    ensures { PowersIn h t.new }
{
    let p = powers(h);
    let hi = from_fn(|n| p[n].hi);
    let lo = from_fn(|n| p[n].lo);
    t.fill(&Numbers::new(&hi, &lo));
}

// Horner's rule from y over the sixteen blocks of s from place at on, by the table of the powers of some h. The requires: they lie in s.
fn batch(t: &Table, y: Block, s: &[u8], at: usize) -> Block
    requires { at + 256 ≤ length s.now }
    ensures { (h : Block) → PowersIn h t.now → result ≡ Yᵢ h y (drop at s.now) 16 }
{
    let mut hi: [u64; 16] = from_fn(|n| word_at(s, at + 16 * n));
    let mut lo: [u64; 16] = from_fn(|n| word_at(s, at + 16 * n + 8));
    hi[0] = y.hi ^ hi[0];
    lo[0] = y.lo ^ lo[0];
    reduced(t.products(&Numbers::new(&hi, &lo)))
}

// Horner's rule from start over the first q batches of sixteen blocks of s. It serves the crate. The requires: they lie in s.
pub fn batches(h: Block, start: Block, s: &[u8], q: usize) -> Block
    requires { 256 * q ≤ length s.now }
    ensures { result ≡ Yᵢ h start s.now (16 * q) }
{
    let mut t = Table::new();
    fill_powers(h, &mut t);
    let mut y = start;
    for i in 0..q {
        y = batch(&t, y, s, 256 * i);
    }
    y
}
