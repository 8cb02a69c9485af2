// Keys, their schedules, and AES by value for the layers above.
ghost use Rattle.std.specs.Prelude.{◌≡◌, true, length};
ghost use Rattle.cipher.specs.Cipher.{rows_of, aes};
ghost use Rattle.cipher.specs.Answers.{key_fits};

use super::rounds::cipher;
use super::schedule::fill;

// The rows of a key's schedule.
pub const ROWS: usize = 11;

// A cipher key.
#[derive(Clone, Copy)]
pub struct Key {
    pub bytes: [u8; 16],
}

impl Key {
    // Serves the layers above: whether a slice is a key.
    pub fn fits(s: &[u8]) -> bool
        ensures { result ≡ key_fits s.now }
    {
        s.len() == 16
    }

    // Serves the layers above: the key that a slice is. The slice must be one, since its bytes are taken as they stand.
    pub fn from_bytes(s: &[u8]) -> Key
        requires { key_fits s.now ≡ true }
        ensures { result.bytes ≡ s.now }
    {
        Key {
            bytes: *s.as_array().unwrap(),
        }
    }

    // Serves the layers above: fills the rows that the caller holds with the key's schedule. Who encrypts many blocks does it once; handed over by
    // value to several callers, the rows would be copied each time. They are a slice, since other lengths of keys have other numbers of rows.
    pub fn fill_rows(self, rows: &mut [[u8; 16]])
        requires { length rows.old ≡ 11 }
        ensures { rows.new ≡ rows_of self.bytes }
    {
        fill(&self.bytes, rows);
    }

    // Serves the layers above: AES of one block, by value.
    pub fn encrypt(self, block: [u8; 16]) -> [u8; 16]
        ensures { result ≡ aes self.bytes block }
    {
        cipher(&expand(self), block)
    }
}

// The key's schedule: eleven rows of sixteen bytes, one that is added first and one for each of the ten rounds.
fn expand(key: Key) -> [[u8; 16]; ROWS]
    ensures { result ≡ rows_of key.bytes }
{
    let mut rows = [[0u8; 16]; ROWS];
    key.fill_rows(&mut rows);
    rows
}
