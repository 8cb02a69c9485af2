// How what the steps answer is printed: text by text, each by a call of its own, so that where a write fails all that stands before it was written.
use file::{Cause, State, Verdict};
use std::io;

// Prints a state's length and sum, and a count.
pub fn print_state(rt: &impl Print, st: State, count: u64) -> io::Result<()> {
    rt.write_all(b": length ")?;
    rt.print(st.n)?;
    rt.write_all(b", sum ")?;
    print!(rt; "{:016x}", st.s.hi)?;
    print!(rt; "{:016x}", st.s.lo)?;
    rt.write_all(b", count ")?;
    rt.print(count)
}

// Prints the number of a refusal.
pub fn print_refusal(rt: &impl Print, cause: Cause) -> io::Result<()> {
    rt.write_all(b": refused ")?;
    rt.print(u64::from(cause))
}

// Prints where a replay stops, or a forecast, and ends the line.
pub fn print_stop(
    rt: &impl Print,
    answer: Result<(), journal::Cause>,
    offset: u64,
) -> io::Result<()> {
    match answer {
        Ok(()) => rt.write_all(b", done at ")?,
        Err(cause) => {
            rt.write_all(b", refused ")?;
            rt.print(u64::from(cause))?;
            rt.write_all(b" at ")?;
        }
    }
    rt.print(offset)?;
    rt.write_all(b"\n")
}

// Prints bytes as hexadecimal digits.
pub fn print_bytes(rt: &impl Print, s: &[u8]) -> io::Result<()> {
    for x in s {
        print!(rt; "{x:02x}")?;
    }
    Ok(())
}

// A verdict in words.
pub fn words(verdict: Verdict) -> &'static [u8] {
    match verdict {
        Verdict::NotGenuine => b": not genuine",
        Verdict::Current => b": current",
        Verdict::Stale => b": stale",
        Verdict::Ahead => b": ahead",
    }
}
