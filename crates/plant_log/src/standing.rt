//! A fault that goes on, and when it is told again.

ghost use Rattle.std.specs.Prelude.{◌≡◌, ◌↔◌, IsTrue};
ghost use Rattle.plant_log.specs.Standing.{IsToldAnew, StandsAfter};

use folders::{FolderFault, has_passed};

/// How long it takes until something that goes on is told again, in milliseconds.
pub const HOUR: u64 = 3_600_000;

/// A fault that goes on, as it was told last.
#[derive(Clone, Copy)]
pub struct Standing {
    pub fault: FolderFault,
    /// When it was told last, in milliseconds.
    pub at: u64,
}

/// Whether a fault is to be told at a moment in milliseconds, where this was told last: it is another, or an hour has passed.
pub fn is_told_anew(last: Option<Standing>, fault: FolderFault, now: u64) -> bool
    ensures { IsTrue result ↔ IsToldAnew last fault now }
{
    match last {
        Some(last) => last.fault != fault || has_passed(last.at, HOUR, now),
        None => true,
    }
}

/// What was told last of a fault from then on.
pub fn told_after(last: Option<Standing>, fault: FolderFault, now: u64) -> Standing
    ensures { StandsAfter last fault now result }
{
    match last {
        Some(last) if last.fault == fault && !has_passed(last.at, HOUR, now) => last,
        _ => Standing { fault, at: now },
    }
}
