// The three lines of a file as text.
ghost use Rattle.std.specs.Prelude.{◌≡◌, [], ◌++◌, ◌+◌, ◌≤◌, length, take};
ghost use Rattle.field.specs.Field.{value, max_bytes};
ghost use Rattle.hash.specs.Lines.{decimal, hexadecimal, lines_bytes, file_lines};

use field::Block;
use field::summing::blocks;

// The most bytes that the lines take.
const LINES_BYTES: usize = 94;

// A text, and room for the lines: the first n bytes were put.
#[derive(Clone, Copy)]
pub struct Text {
    bytes: [u8; LINES_BYTES],
    n: usize,
    ghost within: { n ≤ lines_bytes },
}

// The lines of a file of n bytes.
pub fn lines(n: u64, hash: Block) -> Text
    requires { n ≤ max_bytes }
    ensures { take result.n result.bytes ≡ file_lines n hash }
{
    let mut text = Text::new();
    text.put_count(b"bytes ", n);
    text.put_count(b"\nblocks ", blocks(n));
    text.put(b"\nghash ");
    text.put_block(hash);
    text.put(b"\n");
    text
}

impl Text {
    // Nothing yet.
    fn new() -> Text
        ensures place { result.n ≡ 0 }
        ensures text { take result.n result.bytes ≡ [] }
    {
        Text {
            bytes: [0; LINES_BYTES],
            n: 0,
        }
    }

    // What was put.
    pub fn bytes(&self) -> &[u8]
        ensures { result.now ≡ take self.now.n self.now.bytes }
    {
        &self.bytes[..self.n]
    }

    // Puts a text behind the others. The requires: it fits.
    fn put(&mut self, text: &[u8])
        requires { self.old.n + length text.now ≤ lines_bytes }
        ensures place { self.new.n ≡ self.old.n + length text.now }
        ensures text { take self.new.n self.new.bytes ≡ take self.old.n self.old.bytes ++ text.now }
    {
        let end = self.n + text.len();
        self.bytes[self.n..end].copy_from_slice(text);
        self.n = end;
    }

    // Puts a word and a number's decimal digits behind it. The requires: the word fits, and 20 digits, the most that a number of 64 bits has.
    fn put_count(&mut self, word: &[u8], n: u64)
        requires { self.old.n + length word.now + 20 ≤ lines_bytes }
        ensures place { self.new.n ≤ self.old.n + length word.now + 20 }
        ensures text { take self.new.n self.new.bytes ≡ take self.old.n self.old.bytes ++ word.now ++ decimal n }
    {
        self.put(word);
        let mut digits = [0u8; 20];
        let k = io::decimal(n, &mut digits);
        self.put(&digits[..k]);
    }

    // Puts a block's 32 hexadecimal digits. The requires: they fit.
    fn put_block(&mut self, b: Block)
        requires { self.old.n + 32 ≤ lines_bytes }
        ensures place { self.new.n ≡ self.old.n + 32 }
        ensures text { take self.new.n self.new.bytes ≡ take self.old.n self.old.bytes ++ hexadecimal 32 (value b) }
    {
        self.put_word(b.hi);
        self.put_word(b.lo);
    }

    // Puts a word's 16 hexadecimal digits. The requires: they fit.
    fn put_word(&mut self, n: u64)
        requires { self.old.n + 16 ≤ lines_bytes }
        ensures place { self.new.n ≡ self.old.n + 16 }
        ensures text { take self.new.n self.new.bytes ≡ take self.old.n self.old.bytes ++ hexadecimal 16 n }
    {
        let mut digits = [0u8; 16];
        let k = io::hex(n, 16, &mut digits);
        self.put(&digits[..k]);
    }
}
