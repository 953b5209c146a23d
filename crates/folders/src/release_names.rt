//! The numbers of files, by their names: among the releases, and among what was sent.

ghost use Rattle.std.specs.Prelude.{◌≡◌, ◌≤◌, ◌++◌, ℕ, IfOk, IfSome, IfNone, Some, None, decimal};
ghost use Rattle.protocol.specs.Limits.{last_number};
ghost use Rattle.folders.specs.ReleaseNames.{IsReleaseOf, IsCopyOf, IsSentOf};

use crate::names::{file_name, named};
use ballots::Number;
use std::alloc::{AllocError, Global};

/// The number of a name that is the very name of the number's file with this end.
fn number_with(alloc: Global, name: &str, end: &str) -> Result<Option<Number>, AllocError>
    ensures { IfOk result (λ found. IfSome found (λ n. name.now ≡ decimal n ++ end.now)) }
{
    let Some(digits) = name.strip_suffix(end) else {
        return Ok(None);
    };
    let Ok(value) = digits.parse::<u32>() else {
        return Ok(None);
    };
    let Some(number) = Number::new(value) else {
        return Ok(None);
    };
    let own = file_name(alloc, number.get(), end)?;
    Ok((own.as_str() == name).then_some(number))
}

/// The number whose release has a file of this name: its tape, its galley, or the mark of its withdrawal. It has to be the very name of
/// the number's file, `12.tape` and not `012.tape`; where there is no memory to make that one, `AllocError`.
pub fn release_number(alloc: Global, name: &str) -> Result<Option<Number>, AllocError>
    ensures { IfOk result (λ found. IfSome found (λ n. IsReleaseOf name.now n)) }
{
    if let Some(number) = number_with(alloc, name, ".tape")? {
        return Ok(Some(number));
    }
    if let Some(number) = number_with(alloc, name, ".void")? {
        return Ok(Some(number));
    }
    number_with(alloc, name, ".galley")
}

/// The name that a file had before it was moved, by the one that it has since: a number may have come behind it.
fn first_name(name: &str) -> &str
    ensures { IsCopyOf name.now result.now }
{
    match name.rsplit_once('.') {
        Some((front, copy)) if copy.parse::<u64>().is_ok() => front,
        _ => name,
    }
}

/// The number of a file of this name among what was sent; where there is no memory to tell, `AllocError`.
pub fn sent_number(alloc: Global, name: &str) -> Result<Option<Number>, AllocError>
    ensures { IfOk result (λ found. IfSome found (λ n. IsSentOf name.now n)) }
{
    match named(alloc, first_name(name))? {
        Some(request) => Ok(Some(request.number)),
        None => Ok(None),
    }
}
