//! A key as a block of SHA-256, and the block with bits changed.

ghost use Rattle.std.specs.Prelude.{◌≡◌, ◌≤◌, length};
ghost use Rattle.hmac.specs.Hmac.{filled, key_block, masked};

use sha2::{Digest, Sha256};

/// The length of a block.
pub(crate) const BLOCK_LEN: usize = 64;

/// The bytes, and zeros behind them up to a block.
fn filled(bytes: &[u8]) -> [u8; BLOCK_LEN]
    requires { length bytes.now ≤ 64 }
    ensures { result ≡ filled bytes.now }
{
    let mut block = [0u8; BLOCK_LEN];
    'bytes: for i in 0..bytes.len() {
        block[i] = bytes[i];
    }
    block
}

/// A key as a block: one that is longer is its digest.
pub(crate) fn key_block(key: &[u8]) -> [u8; BLOCK_LEN]
    ensures { result ≡ key_block key.now }
{
    if key.len() > BLOCK_LEN {
        let digest = Sha256::digest(key);
        return filled(&digest);
    }
    filled(key)
}

/// The block, these bits of each byte changed.
pub(crate) fn masked(bits: u8, block: &[u8; BLOCK_LEN]) -> [u8; BLOCK_LEN]
    ensures { result ≡ masked bits block.now }
{
    let mut out = [0u8; BLOCK_LEN];
    'bytes: for i in 0..BLOCK_LEN {
        out[i] = block[i] ^ bits;
    }
    out
}
