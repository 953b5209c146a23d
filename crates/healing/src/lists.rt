//! The numbers that are recalled or sought, of those that were.

ghost use Rattle.std.specs.Prelude.{◌≡◌, ◌<◌, ℕ, true, [], ◌∷◌, ◌++◌, length, if◌then◌else◌};
ghost use Rattle.healing.specs.Cases.{sought_in, recalled_in};
ghost use Rattle.healing.specs.Healing.{case_in};
ghost use Rattle.healing.specs.Lists.{is_among};

use crate::case::{LackedNumber, is_recalled, is_sought};
use crate::ripe::case_of;
use arrayvec::ArrayVec;
use std::collections::BTreeMap;

/// Adds a number, or does not.
fn add_if<const N: usize>(adds: bool, numbers: &mut ArrayVec<u32, N>, number: u32)
    requires { length numbers.old.items < N }
    ensures { numbers.new.items ≡ (if adds then numbers.old.items ++ number ∷ [] else numbers.old.items) }
{
    if adds {
        numbers.push(number);
    }
}

/// Of these numbers those that are sought.
pub(crate) fn still_sought(
    cases: &BTreeMap<u32, LackedNumber>,
    numbers: &ArrayVec<u32, 8>,
) -> ArrayVec<u32, 8>
    ensures { (n : ℕ) → sought_in (case_in cases.now.entries n) ≡ true → is_among numbers.now.items n ≡ true → is_among result.items n ≡ true }
{
    let mut kept = ArrayVec::new();
    for number in numbers.as_slice() {
        let keeps = is_sought(case_of(cases, *number));
        add_if(keeps, &mut kept, *number);
    }
    kept
}

/// Of these numbers those that are recalled.
pub(crate) fn still_recalled(
    cases: &BTreeMap<u32, LackedNumber>,
    numbers: &ArrayVec<u32, 64>,
) -> ArrayVec<u32, 64>
    ensures { (n : ℕ) → recalled_in (case_in cases.now.entries n) ≡ true → is_among numbers.now.items n ≡ true → is_among result.items n ≡ true }
{
    let mut kept = ArrayVec::new();
    for number in numbers.as_slice() {
        let keeps = is_recalled(case_of(cases, *number));
        add_if(keeps, &mut kept, *number);
    }
    kept
}
