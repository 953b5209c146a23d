//! Why a text is no width file.

ghost use Rattle.std.specs.Prelude.{◌≡◌};
ghost use Rattle.widths.specs.declared.fault.WidthFault.TheVariants.{OutOfMemory};

use std::alloc::{AllocError, AllocFailed};

/// A key of a width file, in the order in which they are looked at.
#[derive(Clone, Copy, PartialEq, Eq)]
pub enum WidthKey {
    Measure,
    BandMin,
    BandMax,
    Thin,
    En,
    Em,
    Matrix,
    /// An entry of the table `matrix`, its names in byte order and counted from 1.
    Entry { place: usize },
}

/// The first of these that holds, key by key, then of the bands, and then entry by entry.
#[derive(Clone, Copy, PartialEq, Eq)]
pub enum WidthFault {
    /// The text is not TOML.
    NotToml,
    /// The key is absent.
    Missing { key: WidthKey },
    /// The key's value is no whole number, or that of `matrix` no table.
    WrongType { key: WidthKey },
    /// The measure is not 1 to 65,535, or another width not 1 to 999.
    OutOfRange { key: WidthKey },
    /// The least width of a band is above the greatest.
    BandsCrossed,
    /// A matrix may not have the name of the entry at this place.
    BadName { place: usize },
    /// There was no memory to read it.
    OutOfMemory,
}

impl From<AllocError> for WidthFault {
    ghost from_gives = { λ _ fault. fault ≡ OutOfMemory };

    fn from(_error: AllocError) -> WidthFault {
        WidthFault::OutOfMemory
    }
}

impl<T: Drop> From<AllocFailed<T>> for WidthFault {
    ghost from_gives = { λ _ fault. fault ≡ OutOfMemory };

    fn from(_error: AllocFailed<T>) -> WidthFault {
        WidthFault::OutOfMemory
    }
}
