//! Why rows could not be read or saved.

ghost use Rattle.std.specs.Prelude.{◌≡◌, ◌≤◌};
ghost use Rattle.rows_saved.specs.Saved.{Rises};

/// Why a call on saved rows was refused.
#[derive(Clone, Copy, PartialEq, Eq)]
pub enum RowsFault {
    /// The store refused: a statement or a save failed, or an earlier save did.
    Store,
    /// The rows belong to another station.
    WrongStation,
    /// The tables are there, and are not of a layout that is known.
    WrongSchema,
    /// What is stored under this key is no row, or the key is no circuit number.
    Damaged { number: i64 },
    /// A growth was refused.
    OutOfMemory,
}

/// Counts a refusal for this fault.
pub(crate) fn refuse(refusals: &mut u64, fault: RowsFault) -> RowsFault
    ensures fault { result ≡ fault }
    ensures cause { Rises refusals.old refusals.new }
    ensures counts { refusals.old ≤ refusals.new }
{
    *refusals = refusals.saturating_add(1);
    fault
}
