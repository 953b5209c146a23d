//! The keys of a circuit.

ghost use Rattle.std.specs.Prelude.{◌≡◌, IfOk, option_map};
ghost use Rattle.hmac.specs.Hmac.{key_block, hmac_sha256};
ghost use Rattle.circuit_keys.specs.Circuit.{circuit_text};

use crate::key_file::{KEY_LEN, SharedKeys};
use hmac::Key;
use seals::Keys;
use std::alloc::{AllocError, Global};

/// What stands before the circuit's number: what the key is for.
const NAME: [u8; 16] = *b"circuitd sealed1";

/// What a key is made for: the circuit's number, and how many members it has.
fn circuit_text(alloc: Global, circuit: u16, count: u8) -> Result<Vec<u8>, AllocError>
    ensures { IfOk result (λ text. text.items ≡ circuit_text circuit count) }
{
    let mut text = Vec::from_slice(alloc, &NAME)?;
    text.extend_from_slice(&[(circuit / 256) as u8, (circuit % 256) as u8, count])?;
    Ok(text)
}

/// The key that a shared key gives the circuit of this text.
fn key_for(shared: &[u8; KEY_LEN], text: &[u8]) -> Key
    ensures { result ≡ key_block (hmac_sha256 shared.now text.now) }
{
    Key::new(&Key::new(shared).tag(text))
}

/// The same of a shared key that may be absent.
fn key_for_any(shared: &Option<[u8; KEY_LEN]>, text: &[u8]) -> Option<Key>
    ensures { result ≡ option_map (λ key. key_block (hmac_sha256 key text.now)) shared.now }
{
    match shared {
        Some(key) => Some(key_for(key, text)),
        None => None,
    }
}

/// The keys of a circuit of this number and of so many members.
pub fn circuit_keys(
    alloc: Global,
    shared: &SharedKeys,
    circuit: u16,
    count: u8,
) -> Result<Keys, AllocError>
    ensures first { IfOk result (λ keys. keys.first ≡ key_block (hmac_sha256 shared.now.first (circuit_text circuit count))) }
    ensures second { IfOk result (λ keys. keys.second ≡ option_map (λ key. key_block (hmac_sha256 key (circuit_text circuit count))) shared.now.second) }
{
    let text = circuit_text(alloc, circuit, count)?;
    Ok(Keys {
        first: key_for(&shared.first, &text),
        second: key_for_any(&shared.second, &text),
    })
}
