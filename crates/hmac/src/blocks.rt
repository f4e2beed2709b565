//! What is hashed of a key: a block of the hash function, with the one mask or the other.
ghost use Rattle.std.specs.Prelude.{◌≡◌, ◌≤◌, ◌++◌, drop, length};
ghost use Rattle.hmac.specs.Hmac.{filled_up, key_block as block_of, masked as masked_of};

use sha2::{Digest, Sha256};

/// How many bytes a block of SHA-256 has.
const BLOCK_BYTES: usize = 64;

/// A key in a block: its digest, where it is longer.
pub(crate) fn key_block(key: &[u8]) -> [u8; BLOCK_BYTES]
    ensures { result ≡ block_of key.now }
{
    if key.len() > BLOCK_BYTES {
        return block_with(&Sha256::digest(key));
    }
    block_with(key)
}

/// These bytes, and zeros behind them.
fn block_with(bytes: &[u8]) -> [u8; BLOCK_BYTES]
    requires { length bytes.now ≤ 64 }
    ensures { result ≡ filled_up bytes.now }
{
    let mut block = [0; BLOCK_BYTES];
    put_first(&mut block, bytes);
    block
}

/// Writes bytes over the first of a block.
fn put_first(block: &mut [u8], bytes: &[u8])
    requires { length bytes.now ≤ length block.old }
    ensures { block.new ≡ bytes.now ++ drop (length bytes.now) block.old }
{
    block[..bytes.len()].copy_from_slice(bytes);
}

/// Each byte of the block xor this one.
pub(crate) fn masked(mut block: [u8; BLOCK_BYTES], pad: u8) -> [u8; BLOCK_BYTES]
    ensures { result ≡ masked_of pad block }
{
    for byte in block.iter_mut() {
        *byte ^= pad;
    }
    block
}
