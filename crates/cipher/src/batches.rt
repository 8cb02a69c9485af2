// Many blocks under one schedule, for counter mode: sixteen at a time while there are so many, and then one by one.
ghost use Rattle.std.specs.Prelude.{◌≡◌, ◌≤◌, ◌%◌, length};
ghost use Rattle.cipher.specs.Cipher.{each_block};

use super::kernel::encrypt_sixteen;
use super::rounds::cipher;

// Replaces every block of a slice by its cipher, under the rows of a schedule. It serves the layers above. The requires: the slice is whole
// blocks, and a schedule has a row before the rounds and one for the last.
pub fn encrypt_blocks(rows: &[[u8; 16]], blocks: &mut [u8])
    requires { (2 ≤ length rows.now) × (length blocks.old % 16 ≡ 0) }
    ensures { blocks.new ≡ each_block rows.now blocks.old }
{
    // Parts by index: of those that chunks_exact_mut lends a proof does not know what they hold afterwards.
    let sixteens = blocks.len() / 256;
    for i in 0..sixteens {
        encrypt_sixteen(rows, &mut blocks[256 * i..256 * i + 256]);
    }
    for i in 16 * sixteens..blocks.len() / 16 {
        let part = &mut blocks[16 * i..16 * i + 16];
        part.copy_from_slice(&cipher(rows, *part.as_array().unwrap()));
    }
}
