//! A key, and the tags under it.

ghost use Rattle.std.specs.Prelude.{◌≡◌, ◌++◌, List, ℕ, [], ⊤};
ghost use Rattle.hmac.specs.Hmac.{key_block, hmac_of_block};
ghost use Rattle.sha2.specs.Hashers.{Holds256};
ghost use Rattle.hmac.specs.Hmac.{masked};

use crate::pads::{BLOCK_LEN, key_block, masked};
use sha2::{Digest, Sha256};
use std::marker::Model;

/// The bits that are changed in the key before the message is hashed, and before that digest is.
const INNER: u8 = 0x36;

const OUTER: u8 = 0x5c;

/// A key. Clauses see it as its block.
///
/// Both hashers have taken in their block, so that a tag costs two blocks less.
#[derive(Drop)]
pub struct Key {
    block: [u8; BLOCK_LEN],
    inner: Sha256,
    outer: Sha256,
}

impl Model for Key {
    ghost use Rattle.std.specs.Prelude.{List, ℕ};
    ghost use Rattle.sha2.specs.Hashers.{Holds256};
    ghost use Rattle.hmac.specs.Hmac.{masked};

    ghost Value = { List ℕ };

    ghost view = { λ k. k.block };

    ghost invariant = { λ k. Holds256 k.inner (masked 0x36 k.block) × Holds256 k.outer (masked 0x5c k.block) };
}

/// A hasher that has taken in this block.
fn hasher_of(block: &[u8; BLOCK_LEN]) -> Sha256
    ensures { Holds256 result block.now }
{
    let mut hasher = Sha256::new();
    hasher.update(block);
    hasher
}

/// A hasher of the same message.
fn again(hasher: &Sha256) -> Sha256
    ensures { result ≡ hasher.now }
{
    match hasher.clone() {
        Ok(hasher) => hasher,
        Err(_) => unreachable!(),
    }
}

impl Key {
    /// The key of these bytes. One of more than 64 bytes is as strong as its digest.
    pub fn new(bytes: &[u8]) -> Key
        ensures { result ≡ key_block bytes.now }
    {
        let block = key_block(bytes);
        let inner = hasher_of(&masked(INNER, &block));
        let outer = hasher_of(&masked(OUTER, &block));
        Key {
            block,
            inner,
            outer,
        }
    }

    /// The tag of the message that both parts make.
    pub fn tag_of_parts(&self, first: &[u8], second: &[u8]) -> [u8; 32]
        ensures { result ≡ hmac_of_block self.now (first.now ++ second.now) }
    {
        let mut inner = again(&self.inner);
        inner.update(first);
        inner.update(second);
        let digest = inner.finalize();
        let mut outer = again(&self.outer);
        outer.update(&digest);
        outer.finalize()
    }

    /// The tag of the message.
    pub fn tag(&self, message: &[u8]) -> [u8; 32]
        ensures { result ≡ hmac_of_block self.now message.now }
    {
        let mut inner = again(&self.inner);
        inner.update(message);
        let digest = inner.finalize();
        let mut outer = again(&self.outer);
        outer.update(&digest);
        outer.finalize()
    }
}
