//! Why a tape cannot be read.

ghost use Rattle.std.specs.Prelude.{◌≡◌};
ghost use Rattle.slug_reader.specs.Faults.{fault_with};
ghost use Rattle.slug_reader.specs.Pieces.{is_memory};

/// What is wrong with a frame.
#[derive(Clone, Copy, PartialEq, Eq)]
pub enum Flaw {
    /// It means nothing in the case that holds there.
    UnknownCode,
    /// It means a matrix that has no width.
    NoWidth,
}

/// What is wrong at the first faulty position of a tape, or want of memory. Positions are counted from 0.
#[derive(Clone, Copy, PartialEq, Eq)]
pub enum ReadFault {
    /// The frame at this position means nothing in the case that holds there, or is a byte above 63.
    UnknownCode { at: u32 },
    /// The frame at this position means a matrix that has no width.
    NoWidth { at: u32 },
    /// There are items after the last elevate code; the position is the end of the tape.
    Unfinished { at: u32 },
    /// The frame at this position is one more than a tape has.
    TooLong { at: u32 },
    /// The lines could not be kept.
    OutOfMemory,
}

impl Flaw {
    /// The fault of a frame at this position.
    pub fn at(self, at: u32) -> ReadFault
        ensures { result ≡ fault_with at self }
    {
        match self {
            Flaw::UnknownCode => ReadFault::UnknownCode { at },
            Flaw::NoWidth => ReadFault::NoWidth { at },
        }
    }
}

impl ReadFault {
    /// Whether it is want of memory.
    pub(crate) fn is_memory(&self) -> bool
        ensures { result ≡ is_memory self.now }
    {
        matches!(self, ReadFault::OutOfMemory)
    }
}
