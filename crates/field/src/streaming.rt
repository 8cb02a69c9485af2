// GHASH of one byte list that comes in chunks, none of which is kept. Every chunk but the last is whole blocks.
ghost use Rattle.std.specs.Prelude.{◌≡◌, [], ◌+◌, ◌≤◌, length};
ghost use Rattle.field.specs.Answers.{max_bytes};
ghost use Rattle.field.specs.Clauses.{streamed, absorbed};
ghost use Rattle.field.specs.Streams.{finished};

use super::blocks::Block;
use super::hashing::closed;
use super::summing::run;

// The key, the sum of the bytes taken so far, and how many they are.
#[derive(Clone, Copy)]
pub struct Stream {
    pub h: Block,
    pub y: Block,
    pub n: u64,
}

impl Stream {
    // A stream that has taken nothing. It serves the layers above.
    pub fn new(h: Block) -> Stream
        ensures { result ≡ streamed h [] }
    {
        Stream {
            h,
            y: Block::ZERO,
            n: 0,
        }
    }

    // One chunk more. It serves the layers above. The requires: the count of bytes has room, so that their bits fit a word at the
    // end.
    pub fn absorb(self, chunk: &[u8]) -> Stream
        requires { self.n + length chunk.now ≤ max_bytes }
        ensures { result ≡ absorbed self chunk.now }
    {
        Stream {
            h: self.h,
            y: run(self.h, self.y, chunk),
            n: self.n + chunk.len() as u64,
        }
    }

    // The hash of all the bytes taken. It serves the layers above. The requires: the number of their bits fits a word.
    pub fn finish(self) -> Block
        requires { self.n ≤ max_bytes }
        ensures { result ≡ finished self }
    {
        closed(self.h, self.y, self.n, 0)
    }
}
