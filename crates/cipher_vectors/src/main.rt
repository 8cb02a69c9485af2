// Runs the published vectors of AES-128 in `stdin`: FIPS 197's own examples, then NIST's. `stdout`, what this must print, comes
// from the vectors and not from the cipher. In this crate's folder:
//   awk '/^#|^CIPHERTEXT/; /^CIPHERTEXT/ { n += length($3) / 32 } END { print "blocks", n }' stdin > stdout
// What can't be written is lost.
#![tactic(auto)]

ghost use Rattle.std.specs.Prelude.{◌<◌, ◌≤◌, length};

use std::array;
use std::io::Read;

// Prints the comments as they stand, for each PLAINTEXT line the CIPHERTEXT line, and at the end the number of blocks.
fn main(rt: HostRuntime) {
    let mut text = [0u8; 65536];
    let n = read_full(&rt, &mut text);
    if n == text.len() {
        let _ = rt.write_all(b"input too long\n");
        return;
    }
    let blocks = run(&rt, &text[..n]);
    let _ = rt.write_all(b"blocks ");
    let _ = rt.println(blocks);
}

// Reads until the buffer is full, the input ends or a read fails, and answers how many bytes it put at the buffer's start. No `for`: how many reads it
// takes, only they tell.
fn read_full(rt: &HostRuntime, buf: &mut [u8]) -> usize
    ensures { result ≤ length buf.new }
{
    let mut stdin = rt.stdin();
    let mut n = 0;
    while let Ok(k) = stdin.read(&mut buf[n..])
        && k > 0
    {
        n += k;
    }
    n
}

// Goes through the lines, and answers how many blocks were encrypted. It takes the runtime whole: of a function over any `Print` today's prover
// writes no invariant for this loop that has a type.
fn run(rt: &HostRuntime, text: &[u8]) -> usize {
    let mut key = [0u8; 16];
    let mut blocks = 0;
    for line in text.split_inclusive(|c| *c == b'\n') {
        if line.starts_with(b"#") {
            let _ = rt.write_all(line);
        }
        if let Some(next) = block_after(line, b"KEY = ") {
            key = next;
        }
        if let Some(digits) = line.strip_prefix(b"PLAINTEXT = ") {
            blocks += encrypt_line(rt, digits, key);
        }
    }
    blocks
}

// The block whose digits stand behind `word`, where a line starts with it and has all of them.
fn block_after(line: &[u8], word: &[u8]) -> Option<[u8; 16]> {
    line.strip_prefix(word)?.first_chunk().map(block_of)
}

// Encrypts a PLAINTEXT line's digits block by block, prints the CIPHERTEXT line, and answers how many blocks there were.
fn encrypt_line(rt: &impl Print, digits: &[u8], key: [u8; 16]) -> usize
    ensures { result ≤ length digits.now }
{
    let (blocks, _) = digits.as_chunks();
    let _ = rt.write_all(b"CIPHERTEXT = ");
    for block in blocks {
        print_encrypted(rt, key, block_of(block));
    }
    let _ = rt.write_all(b"\n");
    blocks.len()
}

// The sixteen bytes that 32 digits spell.
fn block_of(digits: &[u8; 32]) -> [u8; 16] {
    array::from_fn(|i| 16 * value(digits[2 * i]) + value(digits[2 * i + 1]))
}

// The value of a hex digit in lower case, and 0 of any other byte.
fn value(c: u8) -> u8
    ensures { result < 16 }
{
    match c {
        b'0'..=b'9' => c - b'0',
        b'a'..=b'f' => c - b'a' + 10,
        _ => 0,
    }
}

// Encrypts one block and prints the result. No call is refused, since the arrays have 16 bytes: `refused` would be a fault.
fn print_encrypted(rt: &impl Print, key: [u8; 16], block: [u8; 16]) {
    let mut out = [0u8; 16];
    match cipher::encrypt(&key, &block, &mut out) {
        Ok(()) => print_bytes(rt, &out),
        Err(_) => {
            let _ = rt.write_all(b"refused");
        }
    }
}

// Prints bytes as hex digits in lower case. Each goes by a call of its own: where one can't be written, the others are tried.
fn print_bytes(rt: &impl Print, s: &[u8]) {
    for x in s {
        let _ = print!(rt; "{x:02x}");
    }
}
