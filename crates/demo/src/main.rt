// One motion file's week: a start on a blank card, which reads FF (hexadecimal), four edits, a journal of two more that a service laptop brings, which
// is forecast before it is run, and Tuesday's seal. The format is changed and sealed on Wednesday, and put back and sealed on Thursday, so that
// Tuesday's card has the right bytes again on Friday; its slip is stale. After a restart the card is read once, and slips are checked. Each step prints
// the file's length, the running sum and the count of products, or the forecast, or the slip, or the verdict, or a refusal's number. After a write that
// failed nothing more is printed, and that is told on standard error.
#![tactic(auto)]

mod shown;

use field::multiplying::Count;
use file::{Answered, Cause, SLIP_BYTES, State};
use journal::{forecast, replay};
use shown::{print_bytes, print_refusal, print_state, print_stop, words};
use std::io;

const ARM: u32 = 7;

fn main(rt: HostRuntime) {
    if week(&rt).is_err() {
        let _ = eprintln!(rt; "demo: standard output cannot be written");
    }
}

// The week.
fn week(rt: &impl Print) -> io::Result<()> {
    let started = State::start(b"a key for arm 7.", ARM, 0, 40, 0xff);
    let mut st = started.state;
    let outcome = started.outcome;
    print_step(rt, "start with 40 bytes of FF", outcome, st)?;
    let outcome = st.change(15, b"\xff\xff\xff", b"new");
    print_step(rt, "change bytes 15 to 17", outcome, st)?;
    let outcome = st.append(b"gripper A");
    print_step(rt, "append 9 bytes", outcome, st)?;
    let outcome = st.prepend(b"motion file head");
    print_step(rt, "prepend 16 bytes", outcome, st)?;
    let outcome = st.cut_tail(b"er A");
    print_step(rt, "cut 4 bytes", outcome, st)?;
    // A change of bytes 31 to 33 from "new" to "now", and an append of "er B". A head is kind and place in 8 bytes, and a length in 4.
    let journal = b"\x20\0\0\0\0\0\0\x1f\0\0\0\x03newnow\x40\0\0\0\0\0\0\0\0\0\0\x04er B";
    let cut = &journal[..33];
    print_forecast(rt, "forecast a journal cut short", st.n, cut)?;
    let mut tried = st;
    print_replay(rt, "replay a journal cut short", &mut tried, cut)?;
    print_forecast(rt, "forecast the whole journal", st.n, journal)?;
    print_replay(rt, "replay the whole journal", &mut st, journal)?;
    let tuesday = print_seal(rt, "seal on Tuesday", &mut st)?;
    from_wednesday(rt, st, &tuesday)
}

// The week from Wednesday on: the format is changed and put back, so that the bytes are Tuesday's again.
fn from_wednesday(rt: &impl Print, mut st: State, tuesday: &[u8; SLIP_BYTES]) -> io::Result<()> {
    let outcome = st.change(56, b"gripper B", b"gripper C");
    print_step(rt, "change the format", outcome, st)?;
    print_seal(rt, "seal on Wednesday", &mut st)?;
    let outcome = st.change(56, b"gripper C", b"gripper B");
    print_step(rt, "undo the change", outcome, st)?;
    let slip = print_seal(rt, "seal on Thursday", &mut st)?;
    check(rt, "check Tuesday's slip on Friday", st, tuesday)?;
    check(rt, "check Thursday's slip on Friday", st, &slip)?;

    // What the card then holds: the head, 40 bytes of FF of which three were changed twice, and the appended ones.
    let mut card =
        *b"motion file head\xff\xff\xff\xff\xff\xff\xff\xff\xff\xff\xff\xff\xff\xff\xffnow\xff\xff\xff\xff\xff\xff\xff\xff\xff\xff\xff\xff\xff\xff\xff\xff\xff\xff\xff\xff\xff\xffgripper B";
    let st = read(rt, 3, &card)?;
    check(rt, "check after reading the card", st, &slip)?;
    let st = read(rt, 2, &card)?;
    check(rt, "check where seal 3 is unknown", st, &slip)?;
    card[40] = 0xfe;
    let st = read(rt, 3, &card)?;
    check(rt, "check with one bit flipped", st, &slip)
}

// One read of the card, with the last used seal number.
fn read(rt: &impl Print, last: u64, card: &[u8; 65]) -> io::Result<State> {
    let Answered { state, outcome } = State::read(b"a key for arm 7.", ARM, last, card);
    print_step(rt, "read the card", outcome, state)?;
    Ok(state)
}

// Prints what a call answered, and the state behind it.
fn print_step(
    rt: &impl Print,
    name: &str,
    outcome: Result<Count, Cause>,
    st: State,
) -> io::Result<()> {
    rt.write_all(name.as_bytes())?;
    match outcome {
        Ok(count) => print_state(rt, st, count.number())?,
        Err(cause) => print_refusal(rt, cause)?,
    }
    rt.write_all(b"\n")
}

// Forecasts a journal for a file of n bytes.
fn print_forecast(rt: &impl Print, name: &str, n: u64, journal: &[u8]) -> io::Result<()> {
    let f = forecast(n, journal);
    rt.write_all(name.as_bytes())?;
    rt.write_all(b": bound ")?;
    rt.print(f.bound)?;
    rt.write_all(b", greatest length ")?;
    rt.print(f.greatest)?;
    print_stop(rt, f.answer, f.offset)
}

// Replays a journal.
fn print_replay(rt: &impl Print, name: &str, st: &mut State, journal: &[u8]) -> io::Result<()> {
    let r = replay(st, journal);
    rt.write_all(name.as_bytes())?;
    print_state(rt, *st, r.count)?;
    print_stop(rt, r.answer, r.offset)
}

// Seals the file, and prints the slip.
fn print_seal(rt: &impl Print, name: &str, st: &mut State) -> io::Result<[u8; SLIP_BYTES]> {
    let mut slip = [0u8; SLIP_BYTES];
    let answer = st.seal(&mut slip);
    rt.write_all(name.as_bytes())?;
    match answer {
        Ok(()) => {
            rt.write_all(b": slip ")?;
            print_bytes(rt, &slip)?;
        }
        Err(cause) => print_refusal(rt, cause)?,
    }
    rt.write_all(b"\n")?;
    Ok(slip)
}

// Checks a slip, and prints the verdict.
fn check(rt: &impl Print, name: &str, st: State, slip: &[u8; SLIP_BYTES]) -> io::Result<()> {
    let answer = st.check(slip);
    rt.write_all(name.as_bytes())?;
    match answer {
        Ok(verdict) => rt.write_all(words(verdict))?,
        Err(cause) => print_refusal(rt, cause)?,
    }
    rt.write_all(b"\n")
}
