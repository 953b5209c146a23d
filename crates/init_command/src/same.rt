//! Whether values are the same.

ghost use Rattle.std.specs.Prelude.{◌≡◌, ◌↔◌, IsTrue};

use circuit_keys::SharedKeys;

/// Whether two texts are.
pub(crate) fn is_text(text: &str, other: &str) -> bool
    ensures { IsTrue result ↔ (text.now ≡ other.now) }
{
    text.as_bytes() == other.as_bytes()
}

/// Whether two flags are.
pub(crate) fn is_flag(flag: bool, other: bool) -> bool
    ensures { IsTrue result ↔ (flag ≡ other) }
{
    match (flag, other) {
        (true, true) => true,
        (false, false) => true,
        (true, false) | (false, true) => false,
    }
}

/// Whether the second keys of two files are.
fn is_second(second: &Option<[u8; 32]>, other: &Option<[u8; 32]>) -> bool
    ensures { IsTrue result ↔ (second.now ≡ other.now) }
{
    match (second, other) {
        (None, None) => true,
        (Some(second), Some(other)) => *second == *other,
        (None, Some(_)) | (Some(_), None) => false,
    }
}

/// Whether the keys of two files are.
pub(crate) fn is_key(keys: &SharedKeys, other: &SharedKeys) -> bool
    ensures { IsTrue result ↔ (keys.now ≡ other.now) }
{
    keys.first == other.first && is_second(&keys.second, &other.second)
}
