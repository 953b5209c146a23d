//! What is asked of rows that are read as they were saved before they are stored.

ghost use Rattle.std.specs.Prelude.{◌≡◌, OnOk, OnErr, Ok};
ghost use Rattle.rows_saved.specs.Called.{IsCalled};
ghost use Rattle.rows_saved.specs.Saved.{Saved, SameRows};

use crate::balky::Balky;
use crate::fault::RowsFault;
use crate::memory::MemoryRows;
use crate::rows::Rows;

/// Rows that may store later what was saved in them, and read it meanwhile as if it were stored.
pub trait Settles: Rows {
    // The map that is stored, which the next start finds.
    ghost stored: { Self → Saved };

    // All that was saved is stored.
    ghost is_settled: { Self → Type 0 };

    /// Stores all that was saved, by one call. The map stays as it is read.
    ///
    /// A refusal is counted. After it nothing may be handed out that speaks of a row which was saved since the last call: it may be
    /// stored or not.
    fn settle(&mut self) -> Result<(), RowsFault>
        ensures settled { OnOk result (is_settled self.new) }
        ensures same { Self.Rows.kept self.new → OnOk result (SameRows (Self.Rows.saved self.old) (Self.Rows.saved self.new)) }
        ensures version { Self.Rows.version self.new ≡ Self.Rows.version self.old }
        ensures shows { OnOk result (Self.Rows.shows self.old self.new) }
        ensures torn { OnErr result (Self.Rows.torn self.old self.new) }

        // Where all is stored already, nothing is done.
        ensures nothing { is_settled self.old → (result ≡ Ok tt) × (self.new ≡ self.old) }
        ensures call { IsCalled Self.Rows result self.old self.new };

    // Settled rows are stored as they are read.
    ghost stored_as_read: { (s : Self) → is_settled s → SameRows (Self.Rows.saved s) (stored s) };
}

/// Each save is stored at once.
impl Settles for MemoryRows {
    ghost use Rattle.std.specs.Prelude.{refl};
    ghost use Rattle.rows_saved.specs.Memory.{saved};

    ghost stored = { saved };

    ghost is_settled = { λ _. Unit {0} };

    ghost stored_as_read = { λ s settled n. refl };

    fn settle(&mut self) -> Result<(), RowsFault> {
        Ok(())
    }
}

/// Rows that store each save at once.
pub trait StoresAtOnce: Settles {
    // All that was saved is stored, at any moment.
    ghost at_once: { (s : Self) → Self.Settles.is_settled s };
}

impl StoresAtOnce for MemoryRows {
    ghost at_once = { λ _. tt };
}

/// Each save that it passes on is stored at once.
impl<R: StoresAtOnce> Settles for Balky<R> {
    ghost stored = { λ s. R.Settles.stored s.rows };

    ghost is_settled = { λ s. R.Settles.is_settled s.rows };

    ghost stored_as_read = { λ s. R.Settles.stored_as_read s.rows };

    fn settle(&mut self) -> Result<(), RowsFault>
        ensures settled { R.Settles.is_settled self.new.rows }
        ensures nothing { (result ≡ Ok tt) × (self.new ≡ self.old) }
    {
        Ok(())
    }
}
