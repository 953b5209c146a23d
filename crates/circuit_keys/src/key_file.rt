//! The file of shared keys.

ghost use Rattle.std.specs.Prelude.{◌≡◌};
ghost use Rattle.circuit_keys.specs.KeyFile.{key_in, without_end, keys_in};

use hex::decode_to_slice;

/// The length of a shared key.
pub(crate) const KEY_LEN: usize = 32;

/// The keys that the stations of a circuit share: the first is sent under, and the second is taken as well while keys are changed.
#[derive(Clone, Copy)]
pub struct SharedKeys {
    pub first: [u8; KEY_LEN],
    pub second: Option<[u8; KEY_LEN]>,
}

/// The key of a line: 64 hexadecimal digits.
fn key_in(line: &[u8]) -> Option<[u8; KEY_LEN]>
    ensures { result ≡ key_in line.now }
{
    let mut key = [0u8; KEY_LEN];
    match decode_to_slice(line, &mut key) {
        Ok(()) => Some(key),
        Err(_) => None,
    }
}

/// The text without the end of its last line.
fn without_end(text: &[u8]) -> &[u8]
    ensures { result.now ≡ without_end text.now }
{
    match text.last() {
        Some(b'\n') => {
            let (front, _) = text.split_at(text.len() - 1);
            front
        }
        _ => text,
    }
}

/// The keys of a file: a line of 64 hexadecimal digits, or two; `None` where it is anything else.
pub fn read_keys(text: &[u8]) -> Option<SharedKeys>
    ensures { result ≡ keys_in text.now }
{
    let text = without_end(text);
    if text.len() == 2 * KEY_LEN {
        return Some(SharedKeys {
            first: key_in(text)?,
            second: None,
        });
    }
    if text.len() == 4 * KEY_LEN + 1 && text[2 * KEY_LEN] == b'\n' {
        let (first, rest) = text.split_at(2 * KEY_LEN);
        let (_, second) = rest.split_at(1);
        return Some(SharedKeys {
            first: key_in(first)?,
            second: Some(key_in(second)?),
        });
    }
    None
}
