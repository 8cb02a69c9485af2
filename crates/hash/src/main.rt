// The hash program of document 01: standard input is 16 bytes of H and then the file, of any length. It prints the file's byte and block
// counts and GHASH(H, file, nothing), or a refusal's number alone: 1 for less than 16 bytes of input, 2 for a file of more than 2^61 - 1.
#![tactic(auto)]

mod input;
mod lines;

ghost use Rattle.std.specs.Prelude.{◌≡◌, false, ◌+◌, ◌≤◌, ◌<◌, ◌^◌, length, IfOk};
ghost use Rattle.hash.specs.Reading.{ReadWhole, TooShort, TooLong, Due};

use field::Block;
use field::hashing::MAX_BYTES;
use field::streaming::Stream;
use input::{Failed, Input};
use lines::lines;
use std::env::{Env, FillError};

fn main(rt: HostRuntime) {
    if has_argument(&rt) {
        complain(&rt, b"usage: hash < INPUT (16 bytes of H, then the file)\n");
        return;
    }
    if let Err(failed) = hash_input(&rt) {
        unreadable(&rt, failed);
    }
}

// Reads the key, and hashes the file behind it.
fn hash_input(rt: &HostRuntime) -> Result<(), Failed> {
    let mut input = Input::new();
    let mut key = [0u8; 16];
    let n = fill(rt, &mut input, &mut key)?;
    if n < 16 {
        too_short(rt, input);
        return Ok(());
    }
    hash_file(rt, input, Block::from_bytes(&key))
}

// Whether there is an argument behind the program's name.
fn has_argument(rt: &HostRuntime) -> bool {
    let mut start = [0u8; 1];
    match rt.arg(1, &mut start) {
        Ok(_) | Err(FillError::TooLong) => true,
        Err(FillError::NotPresent) => false,
    }
}

// Reads until the buffer is full or the input ends, and answers how many bytes stand at the buffer's start. The requires: the count of bytes given
// has room.
fn fill(rt: &HostRuntime, input: &mut Input, buf: &mut [u8]) -> Result<usize, Failed>
    requires { input.old.n + length buf.old < 2 ^ 64 }
    ensures within { IfOk result (λ n. n ≤ length buf.new) }
    ensures full { IfOk result (λ n. n < length buf.new → input.new.more ≡ false) }
    ensures counted { IfOk result (λ n. input.new.n ≡ input.old.n + n) }
{
    let mut n = 0;
    // no `for`: a read gives as many bytes as it likes
    while n < buf.len() {
        n += input.read(rt, &mut buf[n..])?;
        if !input.more() {
            break;
        }
    }
    Ok(n)
}

// Takes the file a buffer at a time, and prints its lines at its end. The requires: 16 bytes, the key, were given before.
fn hash_file(rt: &HostRuntime, mut input: Input, h: Block) -> Result<(), Failed>
    requires { input.n ≡ 16 }
{
    let mut stream = Stream::new(h);
    let mut buf = io::large_buffer();
    // A loop without an index: it ends with the input.
    loop {
        let n = fill(rt, &mut input, &mut buf)?;
        if stream.n > MAX_BYTES - n as u64 {
            too_long(rt, input);
            return Ok(());
        }
        stream = stream.absorb(&buf[..n]);
        if !input.more() {
            print(rt, input, h, stream);
            return Ok(());
        }
    }
}

// Prints the lines of a file. The requires: the stream took all that the input gave after the key, up to its end.
fn print(rt: &HostRuntime, input: Input, h: Block, s: Stream)
    requires { ReadWhole input h s }
{
    let text = lines(s.n, s.finish());
    say(rt, input, text.bytes());
}

// Refuses an input under 16 bytes.
fn too_short(rt: &HostRuntime, input: Input)
    requires { TooShort input }
{
    say(rt, input, b"refused 1\n");
}

// Refuses a file of more than 2^61 - 1 bytes.
fn too_long(rt: &HostRuntime, input: Input)
    requires { TooLong input }
{
    say(rt, input, b"refused 2\n");
}

// Writes to standard output, by one call where that takes all of the text. Where the text can't be written, the line at which it stopped has
// no end. Nothing else writes there. The requires: the text is what is to be printed for the input.
fn say(rt: &HostRuntime, input: Input, text: &[u8])
    requires { Due input text.now }
{
    if rt.write_all(text).is_err() {
        complain(rt, b"hash: standard output cannot be written\n");
    }
}

// A failed read is told apart from the end of the input, and no hash is printed.
fn unreadable(rt: &HostRuntime, _: Failed) {
    complain(rt, b"hash: standard input cannot be read\n");
}

// Tells on standard error why nothing is printed, or not all.
fn complain(rt: &HostRuntime, text: &[u8]) {
    let _ = rt.stderr().write_all(text);
}
