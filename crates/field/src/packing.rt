// Numbers as big-endian bytes, read from a slice and written to one.
ghost use Rattle.std.specs.Prelude.{◌≡◌, ◌++◌, ◌+◌, ◌≤◌, ◌<◌, ◌^◌, length, get_or, replicate};
ghost use Rattle.std.proofs.lemmas.List.Edits.{sets};
ghost use Rattle.field.specs.Bytes.{number, bytes};

// The byte at place v of lead zero bytes followed by s, and 0 past the end. Nothing is copied to put the zero bytes in front.
fn byte_at(lead: usize, s: &[u8], v: usize) -> u8
    ensures { result ≡ get_or (replicate lead 0 ++ s.now) v 0 }
{
    if v < lead {
        return 0;
    }
    s.get(v - lead).copied().unwrap_or(0)
}

// The number of the eight bytes from place at on, with no test for each byte. It serves the crate. The requires: they lie in s.
pub fn word_at(s: &[u8], at: usize) -> u64
    requires { at + 8 ≤ length s.now }
    ensures { result ≡ number s.now at 8 }
{
    let mut bytes = [0u8; 8];
    bytes.copy_from_slice(&s[at..at + 8]);
    u64::from_be_bytes(bytes)
}

// The number of the size bytes from place at of lead zero bytes followed by s. It serves the layers above, which read words so.
// The requires: eight bytes fill the word, and no place that is read may pass the largest index.
pub fn number_at(lead: usize, s: &[u8], at: usize, size: usize) -> u64
    requires { (size ≤ 8) × (at + size < 2 ^ 64) }
    ensures { result ≡ number (replicate lead 0 ++ s.now) at size }
{
    let mut n: u64 = 0;
    for k in 0..size {
        let b = byte_at(lead, s, at + k);
        n = n * 256 + b as u64;
    }
    n
}

// Writes the size bytes of v from place at on, the last first. It serves the layers above, which write words so.
// The requires: the bytes have room in out.
pub fn store(out: &mut [u8], at: usize, size: usize, v: u64)
    requires { at + size ≤ length out.old }
    ensures { out.new ≡ sets out.old at (bytes size v) }
{
    let mut rest = v;
    for k in (0..size).rev() {
        out[at + k] = (rest % 256) as u8;
        rest /= 256;
    }
}
