//! What went out, as a start finds it: at the first that keeps it, and later.

ghost use Rattle.std.specs.Prelude.{◌≡◌, Bool, List, ◌&&◌, not, IfOk, IfSome, None};
ghost use Rattle.folders.specs.GoneOut.{StartsWith, IsWithout, HaveSame};

use crate::folders::WentOut;
use crate::released::{copy_of, without};
use gone_out::Numbers;
use std::alloc::{AllocError, Global};

/// What went out at the first start that keeps it, by the numbers that have a row and those of which a file was found: what has a row
/// counts as gone out, and what has a row and no file is missing.
pub fn first_went_out(
    alloc: Global,
    known: &Numbers,
    found: &Numbers,
) -> Result<WentOut, AllocError>
    ensures starts { IfOk result (λ w. StartsWith known.now w.numbers w.missing) }
    ensures missing { IfOk result (λ w. IfSome w.missing (λ m. IsWithout known.now found.now m)) }
    ensures first { IfOk result (λ w. ¬ (w.missing ≡ None)) }
{
    Ok(WentOut {
        numbers: copy_of(alloc, known)?,
        missing: Some(without(alloc, known, found)?),
        set_aside: false,
    })
}

/// What went out at a later start, by the numbers that have a good record.
pub fn went_before(alloc: Global, numbers: &Numbers) -> Result<WentOut, AllocError>
    ensures numbers { IfOk result (λ w. HaveSame w.numbers numbers.now) }
    ensures missing { IfOk result (λ w. w.missing ≡ None) }
    ensures starts { IfOk result (λ w. (known : List Bool) → StartsWith known w.numbers w.missing) }
{
    Ok(WentOut {
        numbers: copy_of(alloc, numbers)?,
        missing: None,
        set_aside: false,
    })
}
