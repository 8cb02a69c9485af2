// The bench cases of document 01 that are no theorems: each line names a case and prints the refusal's number, 0 where it was accepted.
#![tactic(auto)]

use field::hashing::MAX_BYTES;
use file::{Cause, SLIP_BYTES, State};

fn main(rt: HostRuntime) {
    edits(&rt);
    starts(&rt);
    seals(&rt);
}

// Edits of a file of 40 bytes.
fn edits(rt: &impl Print) {
    let mut st = State::start(b"a key for arm 7.", 7, 0, 40, 0xff).state;
    print(rt, "change of 0 bytes at 40 of 40", st.change(40, b"", b""));
    print(rt, "change of 0 bytes at 41 of 40", st.change(41, b"", b""));
    print(rt, "prepend 15", st.prepend(b"fifteen bytes.."));
    print(
        rt,
        "change with an unequal pair past the end",
        st.change(41, b"ab", b"abc"),
    );
}

// Starts about the largest length, with two fill bytes.
fn starts(rt: &impl Print) {
    let start = |n, fill| State::start(b"a key for arm 7.", 7, 0, n, fill).outcome;
    print(rt, "start with 2^61 zero bytes", start(MAX_BYTES + 1, 0));
    print(rt, "start with 2^61 - 1 zero bytes", start(MAX_BYTES, 0));
    print(
        rt,
        "start with 2^61 bytes of FF",
        start(MAX_BYTES + 1, 0xff),
    );
    print(
        rt,
        "start with 2^61 - 1 bytes of FF",
        start(MAX_BYTES, 0xff),
    );
}

// The last two seal numbers.
fn seals(rt: &impl Print) {
    let mut st = State::start(b"a key for arm 7.", 7, u64::MAX - 1, 40, 0xff).state;
    let mut slip = [0u8; SLIP_BYTES];
    print(rt, "seal after 2^64 - 2", st.seal(&mut slip));
    print(rt, "seal after 2^64 - 1", st.seal(&mut slip));
}

// Prints a line by three calls. What can't be written is lost, and the next text is tried all the same.
fn print<T: Drop>(rt: &impl Print, name: &str, answer: Result<T, Cause>) {
    let number = answer.map_or_else(u64::from, |_| 0);
    let _ = rt.write_all(name.as_bytes());
    let _ = rt.write_all(b": ");
    let _ = rt.println(number);
}
