//! Why a text is no code table.

ghost use Rattle.std.specs.Prelude.{◌≡◌};
ghost use Rattle.code_table.specs.declared.fault.TableFault.TheVariants.{OutOfMemory};

use std::alloc::AllocError;

/// The first of these that holds. Entries are counted from 1, and the first faulty entry decides.
#[derive(Clone, Copy, PartialEq, Eq)]
pub enum TableFault {
    /// The text is not TOML.
    NotToml,
    /// There is no key `code`, or it is no array, or the array is empty.
    MissingCodes,
    /// The entry is no table, or `frame` is no whole number, or `unshift` or `shift` is no text, or one of them is absent.
    WrongType { entry: usize },
    /// The frame is not 0 to 63.
    BadFrame { entry: usize },
    /// An earlier entry has this frame.
    DuplicateFrame { entry: usize },
    /// A text is neither a function's name nor one that a matrix may have.
    BadMeaning { entry: usize },
    /// One column is `@shift` or `@unshift`, and the other is not the same.
    CaseCodeDiffers { entry: usize },
    /// There was no memory to read it.
    OutOfMemory,
}

impl From<AllocError> for TableFault {
    ghost from_gives = { λ _ fault. fault ≡ OutOfMemory };

    fn from(_error: AllocError) -> TableFault {
        TableFault::OutOfMemory
    }
}
