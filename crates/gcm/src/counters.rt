// Counter mode (SP 800-38D, 6.2 and 6.5): counter blocks, and GCTR in batches of blocks. The key's schedule is made once a call, and every
// block goes through the cipher's function of many blocks.
ghost use Rattle.std.specs.Prelude.{◌≡◌, ◌+◌, ◌/◌, ◌%◌, ◌^◌, ◌≤◌, length, take, drop};
ghost use Rattle.std.proofs.lemmas.List.Edits.{sets};
ghost use Rattle.cipher.specs.Aes.{rows_of};
ghost use Rattle.field.specs.Field.{bytes_of, xor_bytes};
ghost use Rattle.gcm.specs.Gmac.{CIPH};
ghost use Rattle.gcm.specs.Counters.{inc32, CB, GCTR};
ghost use Rattle.gcm.specs.Clauses.{counters, key_stream};

use cipher::{Key, ROWS, encrypt_blocks};
use field::Block;

// How many bytes of key stream are made at a time.
const BATCH: usize = 256;

// Up to how many bytes blocks are enciphered one by one. Of more a whole batch is made, since sixteen blocks at once take less time than three alone.
const FEW: usize = 32;

// A key, for the clauses, and the rows of its schedule, with which the code works. It is lent, since by value the rows would be copied each time.
#[derive(Drop)]
pub struct Schedule {
    pub key: Key,
    rows: [[u8; 16]; ROWS],
    ghost is: { rows ≡ rows_of key.bytes },
}

impl Schedule {
    // The schedule of a key, whose rows are filled where they stand. It serves the crate.
    pub fn new(key: Key) -> Schedule
        ensures { result.key ≡ key }
    {
        let mut schedule = Schedule {
            key,
            rows: [[0u8; 16]; ROWS],
        };
        key.fill_rows(&mut schedule.rows);
        schedule
    }

    // The cipher of one block, as a block. It serves the crate.
    pub fn ciphered(&self, mut block: [u8; 16]) -> Block
        ensures { result ≡ CIPH self.now.key.bytes block }
    {
        encrypt_blocks(&self.rows, &mut block);
        Block::from_bytes(&block)
    }

    // Fills pad, which is whole blocks, with the cipher of counter blocks, the first of them `first` steps behind j.
    fn key_stream(&self, j: Block, first: u64, pad: &mut [u8])
        requires { (length pad.old % 16 ≡ 0) × (first + length pad.old / 16 ≤ 2 ^ 33) }
        ensures { pad.new ≡ key_stream self.now.key.bytes (bytes_of j) first (length pad.old / 16) }
    {
        fill_counters(j, first, pad);
        encrypt_blocks(&self.rows, pad);
    }

    // Adds its key stream to a batch of a text, which stands there from place at on, and writes the sum to out. The requires: it is no more bytes
    // than a batch has, out is as long, and the place lies in a text.
    fn turn(&self, j: Block, at: usize, batch: &[u8], out: &mut [u8])
        requires { (length batch.now ≤ 256) × (at ≤ 2 ^ 36) × (length out.old ≡ length batch.now) }
        ensures { out.new ≡ xor_bytes batch.now (take (length batch.now) (key_stream self.now.key.bytes (bytes_of j) (at / 16 + 1) 16)) }
    {
        let n = batch.len();
        let mut pad = [0u8; BATCH];
        let whole = stream_bytes(n);
        let first = (at / 16 + 1) as u64;
        self.key_stream(j, first, &mut pad[..whole]);
        add(batch, &pad[..n], out);
    }

    // GCTR of a text from the counter block behind j on, written to out. It serves the crate. The requires: out is as long as the text, which has at
    // most as many blocks as a counter has values.
    pub fn gctr(&self, j: [u8; 16], text: &[u8], out: &mut [u8])
        requires { (length text.now ≤ 2 ^ 36) × (length out.old ≡ length text.now) }
        ensures { out.new ≡ GCTR self.now.key.bytes (inc32 j) text.now }
    {
        let block = Block::from_bytes(&j);
        for (i, batch) in text.chunks(BATCH).enumerate() {
            let at = BATCH * i;
            self.turn(block, at, batch, &mut out[at..at + batch.len()]);
        }
    }
}

// The counter block i steps behind j: its last 32 bits, as a number, raised by i modulo 2^32. The requires: i has room in the sum.
fn counter_block(j: Block, i: u64) -> Block
    requires { i ≤ 2 ^ 33 }
    ensures { bytes_of result ≡ CB (bytes_of j) i }
{
    let number = (j.lo % 0x1_0000_0000 + i) % 0x1_0000_0000;
    Block {
        hi: j.hi,
        lo: j.lo / 0x1_0000_0000 * 0x1_0000_0000 + number,
    }
}

// Fills pad, which is whole blocks, with counter blocks, the first of them `first` steps behind j. By index, as in `add`: of what
// `chunks_exact_mut` or `iter_mut` lends, a proof knows the length alone.
fn fill_counters(j: Block, first: u64, pad: &mut [u8])
    requires { (length pad.old % 16 ≡ 0) × (first + length pad.old / 16 ≤ 2 ^ 33) }
    ensures { pad.new ≡ counters (bytes_of j) first (length pad.old / 16) }
{
    for i in 0..pad.len() / 16 {
        counter_block(j, first + i as u64).write(pad, 16 * i);
    }
}

// Adds two strings of bytes, and writes the sum to out.
fn add(text: &[u8], pad: &[u8], out: &mut [u8])
    requires { (length pad.now ≡ length text.now) × (length out.old ≡ length text.now) }
    ensures { out.new ≡ xor_bytes text.now pad.now }
{
    for k in 0..text.len() {
        out[k] = text[k] ^ pad[k];
    }
}

// How many bytes of key stream are made for n bytes: the blocks that they need, or the whole batch.
fn stream_bytes(n: usize) -> usize
    requires { n ≤ 256 }
    ensures { (result % 16 ≡ 0) × (n ≤ result) × (result ≤ 256) }
{
    if n > FEW {
        BATCH
    } else {
        n.next_multiple_of(16)
    }
}
