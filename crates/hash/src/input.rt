// Standard input, read once at a time. Whether there may be more of it, and whether a read failed, this module alone can say.
ghost use Rattle.std.specs.Prelude.{◌≡◌, true, ◌+◌, ◌≤◌, ◌<◌, ◌^◌, ltb, length, IfOk, MatchResult};

use std::io::Read;

// Standard input after the reads so far: how many bytes they gave, and whether there may be more. With no more the input has ended: after a
// read that failed there may be more.
#[derive(Clone, Copy)]
pub struct Input {
    n: u64,
    more: bool,
}

// A read failed. Its field is private, so that `Input::read` alone can say it.
#[derive(Clone, Copy)]
pub struct Failed {
    told: (),
}

impl Input {
    // Before the first read.
    pub fn new() -> Input
        ensures { result.n ≡ 0 }
    {
        Input { n: 0, more: true }
    }

    // Whether there may be more.
    pub fn more(self) -> bool
        ensures { result ≡ self.more }
    {
        self.more
    }

    // Reads once, and answers how many bytes stand at the buffer's start. A read that gives nothing is the input's end. The requires: something
    // can be given, and the count of bytes has room.
    pub fn read(&mut self, rt: &HostRuntime, buf: &mut [u8]) -> Result<usize, Failed>
        requires some { 0 < length buf.old }
        requires room { self.old.n + length buf.old < 2 ^ 64 }
        ensures within { IfOk result (λ n. n ≤ length buf.new) }
        ensures going { MatchResult result (λ n. self.new.more ≡ ltb 0 n) (λ _. self.new.more ≡ true) }
        ensures counted { MatchResult result (λ n. self.new.n ≡ self.old.n + n) (λ _. self.new.n ≡ self.old.n) }
    {
        let Ok(n) = rt.stdin().read(buf) else {
            self.more = true;
            return Err(Failed { told: () });
        };
        self.n += n as u64;
        self.more = 0 < n;
        Ok(n)
    }
}
