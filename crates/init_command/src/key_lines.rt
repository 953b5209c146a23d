//! The text of a file of keys.

ghost use Rattle.std.specs.Prelude.{◌≡◌, Some, IfOk, IsTrue};
ghost use Rattle.circuit_keys.specs.KeyFile.{keys_in};

use crate::cause::InitFault;
use crate::same::is_key;
use circuit_keys::{SharedKeys, read_keys};
use hex::encode_to_slice;
use std::alloc::{AllocError, Global};

/// How many digits a key has.
const DIGITS: usize = 64;

/// Puts down a key on a line of its own.
fn put_line(text: &mut Vec<u8>, key: &[u8; 32]) -> Result<(), AllocError> {
    let mut digits = [0u8; DIGITS];
    let _ = encode_to_slice(key.as_slice(), &mut digits);
    text.extend_from_slice(&digits)?;
    text.extend_from_slice(b"\n")
}

/// Whether a text is read as these keys.
fn is_read_as(text: &[u8], keys: &SharedKeys) -> bool
    ensures { IsTrue result → keys_in text.now ≡ Some keys.now }
{
    match read_keys(text) {
        Some(read) => is_key(&read, keys),
        None => false,
    }
}

/// The text of the file of these keys. What is handed out was read back, and is these keys.
pub fn key_text(alloc: Global, keys: &SharedKeys) -> Result<Vec<u8>, InitFault>
    ensures { IfOk result (λ text. keys_in text.items ≡ Some keys.now) }
{
    let mut text = Vec::new(alloc);
    put_line(&mut text, &keys.first)?;
    if let Some(second) = &keys.second {
        put_line(&mut text, second)?;
    }
    if is_read_as(&text, keys) {
        Ok(text)
    } else {
        Err(InitFault::Unlike)
    }
}
