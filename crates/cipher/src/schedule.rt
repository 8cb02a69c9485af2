// The key schedule (FIPS 197, section 5.2) as rows of sixteen bytes. Its functions work for a key of 16 or 32 bytes and any number of
// rows, so that one proof serves every key size.
ghost use Rattle.std.specs.Prelude.{◌≡◌, ℕ, ◌+◌, ◌-◌, ◌*◌, ◌/◌, ◌<◌, ◌≤◌, [], length, get_or};
ghost use Rattle.planes.specs.Tables.{tab, at};
ghost use Rattle.planes.specs.Planes.{x_power};
ghost use Rattle.cipher.specs.Schedule.{temp};
ghost use Rattle.cipher.specs.Clauses.{word, next_row, carried, row_of, Expands};

use super::rounds::sub_bytes;

// The first bytes of Rcon[1] to Rcon[10] (FIPS 197, 5.2), with a byte before them that is not used.
const RCON: [u8; 11] = [
    1, 0x01, 0x02, 0x04, 0x08, 0x10, 0x20, 0x40, 0x80, 0x1b, 0x36,
];

fn round_constant(j: usize) -> u8
    requires { j < 11 }
    ensures { result ≡ x_power (j - 1) }
{
    RCON[j]
}

// Row r of a key's own bytes.
fn key_row(key: &[u8], r: usize) -> [u8; 16]
    requires { 16 * r + 16 ≤ length key.now }
    ensures { result ≡ tab 16 (λ i. at key.now (16 * r + i)) }
{
    *key[16 * r..16 * r + 16].as_array().unwrap()
}

// What is added to the first word of row r, from the row before it; d rows are the key's own. All sixteen bytes go through the
// substitution, so that rounds and schedule share one function, and the last four are used.
fn first_word(prev: [u8; 16], r: usize, d: usize) -> [u8; 4]
    requires { (1 ≤ d) × (d ≤ 2) × (r / d < 11) }
    ensures { result ≡ temp (4 * d) (4 * r) (word prev 3) }
{
    let s = sub_bytes(prev);
    if r % d == 0 {
        return [s[13] ^ round_constant(r / d), s[14], s[15], s[12]];
    }
    [s[12], s[13], s[14], s[15]]
}

// What is added to byte i of a row: a byte of t for the first word, and for the others the byte one word before it.
fn added_byte(t: [u8; 4], row: [u8; 16], i: usize) -> u8
    requires { i < 16 }
    ensures { result ≡ carried t row i }
{
    if i < 4 {
        return t[i];
    }
    row[i - 4]
}

// A row from the row d before it and what is added to its first word.
fn next_row(back: [u8; 16], t: [u8; 4]) -> [u8; 16]
    ensures { result ≡ next_row back t }
{
    let mut row = back;
    for i in 0..16 {
        row[i] = back[i] ^ added_byte(t, row, i);
    }
    row
}

// Row r of the schedule, from the rows before it.
fn row_at(key: &[u8], rows: &[[u8; 16]], r: usize) -> [u8; 16]
    requires expands { Expands key.now (r + 1) }
    requires r_in_bounds { r < length rows.now }
    requires by_index { (j : ℕ) → j < r → get_or rows.now j [] ≡ row_of key.now j }
    ensures { result ≡ row_of key.now r }
{
    let d = key.len() / 16;
    if r < d {
        return key_row(key, r);
    }
    next_row(rows[r - d], first_word(rows[r - 1], r, d))
}

// Fills the rows with the schedule of a key, first row first.
pub fn fill(key: &[u8], rows: &mut [[u8; 16]])
    requires { Expands key.now (length rows.old) }
    ensures { rows.new ≡ tab (length rows.old) (row_of key.now) }
{
    for r in 0..rows.len() {
        rows[r] = row_at(key, rows, r);
    }
}
