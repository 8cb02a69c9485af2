// Sums of sixteen products, in which only the sum is put together from its mixtures. The arrays hold rows of sixteen, so that the compiler takes
// two numbers at a time.
ghost use Rattle.std.specs.Prelude.{◌≡◌, ℕ, ◌+◌, ◌*◌, ◌/◌, ◌%◌, ◌^◌, ◌<◌, ◌≤◌, get_or};
ghost use Rattle.clmul.specs.Carryless.{◌⊗◌, total};
ghost use Rattle.clmul.specs.Halves.{mixtures_of, listed};
ghost use Rattle.clmul.specs.Tables;

use super::halves::{Mixtures, added, mixed, unmixed};
use super::karatsuba::{Wide, high, joined_halves, joined_words, low};
use std::array::from_fn;
use std::marker::Model;

// The nine halves of a number of two words.
fn nine_halves(hi: u64, lo: u64) -> [u64; 9]
    ensures { result ≡ listed (λ w. Tables.half w (hi * 2 ^ 64 + lo)) 0 9 }
{
    let sum = hi ^ lo;
    [
        high(hi),
        low(hi),
        high(hi) ^ low(hi),
        high(lo),
        low(lo),
        high(lo) ^ low(lo),
        high(sum),
        low(sum),
        high(sum) ^ low(sum),
    ]
}

// Of nine rows that stand one after another, place k of each is written.
fn write_column<const N: usize>(rows: &mut [u64; N], k: usize, column: [u64; 9])
    requires { k < N / 9 }
    ensures { rows.new ≡ Tables.down (N / 9) k 0 column rows.old }
{
    for j in 0..9 {
        rows[N / 9 * j + k] = column[j];
    }
}

// The halves of sixteen numbers of 128 bits, given by their high and low words. It serves the layers above.
pub fn halves(hi: &[u64; 16], lo: &[u64; 16]) -> [u64; 144]
    ensures { Tables.HalvesIn (λ n. get_or hi.now n 0 * 2 ^ 64 + get_or lo.now n 0) result }
{
    let mut x = [1u64; 144];
    for n in 0..16 {
        write_column(&mut x, n, nine_halves(hi[n], lo[n]));
    }
    x
}

// t becomes the mixtures of the numbers in x. It is filled in place, since a copy would stand on the stack beside it. It serves the layers above.
// Two words stored side by side at the array's start make the compiler place it at a multiple of 16 bytes, so that two numbers of a row are read as
// one.
pub fn fill_table(x: &[u64; 144], t: &mut [u64; 1296])
    ensures { Tables.MixturesIn (λ i. get_or x.now i 0) t.new }
{
    t[0] = x[0];
    t[1] = x[1];
    for i in 0..144 {
        write_column(t, i, mixed(x[i]));
    }
}

// The mixtures that stand at place i of each row of a table.
fn mixtures_at(t: &[u64; 1296], i: usize) -> Mixtures
    requires { i < 144 }
    ensures { (y : ℕ → ℕ) → Tables.MixturesIn y t.now → result ≡ mixtures_of (y i) }
{
    from_fn(|j| t[144 * j + i])
}

// The sum of the sixteen products of the halves in x from place at on with those of the table.
fn row_sum(x: &[u64; 144], t: &[u64; 1296], at: usize) -> u64
    requires { at + 16 ≤ 144 }
    ensures { (y : ℕ → ℕ) → Tables.MixturesIn y t.now → result ≡ total (λ n. get_or x.now (at + n) 0 % 2 ^ 32 ⊗ (y (at + n) % 2 ^ 32)) 16 }
{
    let mut sum = [0; 9];
    for n in 0..16 {
        let i = at + n;
        // Through a name of its own: where a call's array is laid in a variable itself, no proof is made of the function yet.
        let next = added(sum, mixed(x[i]), mixtures_at(t, i));
        sum = next;
    }
    unmixed(sum)
}

// The sum of the products of the sixteen numbers whose halves are in x with those of the table. It serves the layers above.
pub fn sum_of_products(x: &[u64; 144], t: &[u64; 1296]) -> Wide
    ensures { (f g : ℕ → ℕ) → Tables.Small f → Tables.Small g → Tables.HalvesIn f x.now → Tables.TableIn g t.now → Tables.wide result ≡ total (λ n. f n ⊗ g n) 16 }
{
    let p: [u64; 9] = from_fn(|w| row_sum(x, t, 16 * w));
    let h = joined_halves(p[0], p[1], p[2]);
    let l = joined_halves(p[3], p[4], p[5]);
    let m = joined_halves(p[6], p[7], p[8]);
    joined_words(h, l, m)
}

// Sixteen numbers of 128 bits, by their halves: half w of number n stands at 16w + n. With a table it makes a sum of products without conditions.
#[derive(Drop)]
pub struct Numbers {
    words: [u64; 144],
}

impl Model for Numbers {
    ghost use Rattle.std.specs.Prelude.{List, ℕ};
    ghost use Rattle.clmul.specs.Tables.{sixteen, halved, IsHalved};

    ghost Value = { List ℕ };

    ghost view = { λ a. sixteen (halved a.words) };

    ghost invariant = { λ a. IsHalved a.words };
}

impl Numbers {
    // Those of sixteen numbers, given by their high and low words. It serves the layers above.
    pub fn new(hi: &[u64; 16], lo: &[u64; 16]) -> Numbers
        ensures { (n : ℕ) → n < 16 → get_or result n 0 ≡ get_or hi.now n 0 * 2 ^ 64 + get_or lo.now n 0 }
    {
        Numbers {
            words: halves(hi, lo),
        }
    }
}

// Sixteen numbers of 128 bits, by the mixtures of their halves: row j of half i at 144j + i.
#[derive(Drop)]
pub struct Table {
    rows: [u64; 1296],
}

impl Model for Table {
    ghost use Rattle.std.specs.Prelude.{List, ℕ};
    ghost use Rattle.clmul.specs.Tables.{sixteen, tabled, IsTabled};

    ghost Value = { List ℕ };

    ghost view = { λ a. sixteen (tabled a.rows) };

    ghost invariant = { λ a. IsTabled a.rows };
}

impl Table {
    // That of sixteen zeros, to be filled. It serves the layers above.
    pub fn new() -> Table
        ensures { (n : ℕ) → n < 16 → get_or result n 0 ≡ 0 }
    {
        Table { rows: [0; 1296] }
    }

    // The table becomes that of the numbers in x. It serves the layers above.
    pub fn fill(&mut self, x: &Numbers)
        ensures { (n : ℕ) → n < 16 → get_or self.new n 0 ≡ get_or x.now n 0 }
    {
        fill_table(&x.words, &mut self.rows);
    }

    // The sum of the products of the sixteen numbers in x with those of the table. It serves the layers above.
    pub fn products(&self, x: &Numbers) -> Wide
        ensures { Tables.wide result ≡ total (λ n. get_or x.now n 0 ⊗ get_or self.now n 0) 16 }
    {
        sum_of_products(&x.words, &self.rows)
    }
}
