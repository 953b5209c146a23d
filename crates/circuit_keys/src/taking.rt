//! Whether a file of keys is taken, decided on values.

ghost use Rattle.std.specs.Prelude.{◌≡◌};
ghost use Rattle.circuit_keys.specs.Keys.{others_can, keys_taken};

use crate::fault::KeyFault;
use crate::{SharedKeys, read_keys};

/// Whether others than the owner of a file of this mode can read, write or run it: its group, or whoever.
pub(crate) fn others_can(mode: u32) -> bool
    ensures { result ≡ others_can mode }
{
    mode % 0o100 != 0
}

/// The keys in the text of a file of this mode; or why the file is not taken: others can read it, or it holds something else.
pub fn check_keys(mode: u32, text: &[u8]) -> Result<SharedKeys, KeyFault>
    ensures { result ≡ keys_taken mode text.now }
{
    if others_can(mode) {
        return Err(KeyFault::OthersCan);
    }
    read_keys(text).ok_or(KeyFault::BadFile)
}
