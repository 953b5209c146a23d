//! Names under which a station makes files that are not whole yet.

ghost use Rattle.std.specs.Prelude.{◌≡◌, ◌↔◌, IsTrue, IfOk, string_bytes};
ghost use Rattle.folders.specs.OwnNames.{own_name, BeginsAsOwn, IsOldName, IsOwnName};

use std::alloc::{AllocError, Global};

/// The folder within the offers through which a file leaves them.
pub const PASSAGE: &str = ".circuitd";

/// The file in the passage whose lock a station holds that works with the offers. No file of this name is moved, or put back.
pub const LOCK: &str = ".lock";

/// A name that nobody else makes: of the process of this number that started at this moment, in nanoseconds since 1970, the file of this
/// count. Where there is no memory for it, `AllocError`.
pub fn own_name(alloc: Global, process: u32, start: u64, count: u64) -> Result<String, AllocError>
    ensures { IfOk result (λ t. string_bytes t ≡ own_name process start count) }
{
    format!(in alloc; ".circuitd-{process}-{start}-{count}.part")
}

/// Whether it begins as a name that a station makes.
fn begins_as_own(name: &str) -> bool
    ensures { IsTrue result ↔ BeginsAsOwn name.now }
{
    name.starts_with(".circuitd-")
}

/// Whether it is a name that version 0.2.0 or 0.3.0 made ahead.
fn is_old_name(name: &str) -> bool
    ensures { IsTrue result ↔ IsOldName name.now }
{
    name == ".1.part" || name == ".2.part"
}

/// Whether a station made the file of this name, this one or another of this program: one that is not whole, and nobody waits for.
pub fn is_own_name(name: &str) -> bool
    ensures { IsTrue result ↔ IsOwnName name.now }
{
    begins_as_own(name) || is_old_name(name)
}
