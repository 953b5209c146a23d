//! Which key is that of a circuit.

ghost use Rattle.std.specs.Prelude.{◌≡◌, None, IfOk, IfSome};
ghost use Rattle.init_command.specs.Keys.{IsKeyOf, AllHave, NoneHas};

use crate::cause::InitFault;
use crate::same::is_key;
use circuit_keys::SharedKeys;

/// The key beside which another is found; they have to be the same.
fn joined(
    key: Option<SharedKeys>,
    found: &Option<SharedKeys>,
) -> Result<Option<SharedKeys>, InitFault>
    ensures first { IfOk result (λ k. IsKeyOf k key) }
    ensures second { IfOk result (λ k. IsKeyOf k found.now) }
    ensures none { IfOk result (λ k. k ≡ None → (key ≡ None) × (found.now ≡ None)) }
{
    match (key, found) {
        (None, None) => Ok(None),
        (Some(key), None) => Ok(Some(key)),
        (None, Some(found)) => Ok(Some(*found)),
        (Some(key), Some(found)) => {
            if is_key(&key, found) {
                Ok(Some(key))
            } else {
                Err(InitFault::OtherKey)
            }
        }
    }
}

/// The key of a circuit, where this one is asked for, if any, and these were found at its plants: it is theirs and the one that is asked
/// for; `None` where there is none of either. Where two are not the same it is refused.
pub fn circuit_key(
    asked: Option<SharedKeys>,
    found: &[Option<SharedKeys>],
) -> Result<Option<SharedKeys>, InitFault>
    ensures asked { IfOk result (λ key. IsKeyOf key asked) }
    ensures found { IfOk result (λ key. AllHave key found.now) }
    ensures none { IfOk result (λ key. key ≡ None → (asked ≡ None) × NoneHas found.now) }
{
    let Some((first, rest)) = found.split_first() else {
        return Ok(asked);
    };
    let key = joined(asked, first)?;
    circuit_key(key, rest)
}
