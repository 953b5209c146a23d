//! Why a line or a tape does not set.

ghost use Rattle.std.specs.Prelude.{◌≡◌};
ghost use Rattle.line_check.specs.declared.fault.LineFault.TheVariants.{OutOfMemory};

use std::alloc::AllocError;

/// What is wrong at a position of a tape.
#[derive(Clone, Copy, PartialEq, Eq)]
pub enum Cause {
    /// The frame means nothing in the case that holds there.
    UnknownCode,
    /// The frame means a matrix that has no width.
    NoWidth,
    /// The tape ends, and there are items after its last elevate code.
    Unfinished,
    /// The line that is cut there has more than the measure, by this many units, with its bands at their least.
    Overset { over: u32 },
    /// The line that is cut there has less than the measure, by this many units, with its bands at their greatest.
    Loose { under: u32 },
}

/// The first faulty position of a tape.
#[derive(Clone, Copy, PartialEq, Eq)]
pub struct SetFault {
    /// The position, from 0; the length of the tape is its end.
    pub at: u32,
    /// One more than the number of elevate codes before the position.
    pub line: u32,
    /// What is wrong there.
    pub cause: Cause,
}

/// The first faulty position of a tape, or want of memory.
#[derive(Clone, Copy, PartialEq, Eq)]
pub enum SetError {
    Fault(SetFault),
    /// The slugs could not be kept.
    OutOfMemory,
}

/// Why a line has no slug, or want of memory.
#[derive(Clone, Copy, PartialEq, Eq)]
pub enum LineFault {
    /// The line has more than the measure, by this many units, with its bands at their least.
    Overset { over: u32 },
    /// The line has less than the measure, by this many units, with its bands at their greatest.
    Loose { under: u32 },
    /// The line has a slug that could not be kept.
    OutOfMemory,
}

impl From<AllocError> for LineFault {
    ghost from_gives = { λ _ e. e ≡ OutOfMemory };

    fn from(_e: AllocError) -> LineFault {
        LineFault::OutOfMemory
    }
}
