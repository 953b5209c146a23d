//! What a station asks of its saved rows.

ghost use Rattle.std.specs.Prelude.{◌≡◌, ◌≤◌, ◌⊎◌, ◌↔◌, ℕ, IfOk, IfErr, OnOk, OnErr};
ghost use Rattle.protocol.specs.Rows.{Row as RowValue};
ghost use Rattle.rows_saved.specs.Saved.{Saved, SameRows, WithRow, IsEither, HasPromise, RowFits};
ghost use Rattle.rows_saved.specs.Calls.{Answered};
ghost use Rattle.rows_saved.specs.declared.fault.RowsFault.{RowsFault as FaultValue};

use crate::fault::RowsFault;
use ballots::{Number, Row};
use tape_frames::Version;

/// A finite map from numbers to rows, blank where none is saved, with a count of the calls that it refused.
/// It is the stable storage of an acceptor (Lamport 2001): what `put` saved, a later `get` finds. Each row is one that the
/// version of the rows has, which an `upgrade` alone changes.
///
/// The clauses on the map speak of rows that are kept, which has two halves. The store owes the one: what the
/// rows lie in, as the tables of a database, was made for them; rows that begin so stay so through each call.
/// The host owes the other: nobody else writes there, and what was written is read back. No call can give
/// that, so it is asked of the rows as a call leaves them, and then it held before.
pub trait Rows: Drop {
    ghost use Rattle.protocol.specs.Versions.{Version as VersionValue, Two};
    ghost use Rattle.tape_frames.specs.Entries.{version_of};

    // What the store owes: what the rows lie in was made for them.
    ghost made: { Self → Type 0 };

    // What the host owes: so far nobody else wrote there, and what was written was read back.
    ghost honest: { Self → Type 0 };

    // Both, as `halves` says below.
    ghost kept: { Self → Type 0 };

    // No failure has shut it.
    ghost is_open: { Self → Type 0 };

    // The map, while it is open.
    ghost saved: { Self → Saved };

    // The version that it has rows of, also where it is shut.
    ghost version: { Self → VersionValue };

    // How many calls it refused.
    ghost refusals: { Self → ℕ };

    // What else a `get` leaves, what else the Ok of a `put` shows and what else its Err tells,
    // for a caller that knows the type.
    ghost alike: { Self → Self → Type 0 } = { λ _ _. Unit {0} };

    ghost passes: { Self → Self → Type 0 } = { λ _ _. Unit {0} };

    ghost tells: { Self → Self → ℕ → RowValue → Type 0 } = { λ _ _ _ _. Unit {0} };

    // What else the Ok of an `upgrade` shows, and what else its Err tells, for such a caller.
    ghost upgrades: { Self → Self → Type 0 } = { λ _ _. Unit {0} };

    ghost balks: { Self → Self → Type 0 } = { λ _ _. Unit {0} };

    // Of rows whose saves wait: what else the Ok of a `settle` shows, and what else its Err tells, for such a caller.
    ghost shows: { Self → Self → Type 0 } = { λ _ _. Unit {0} };

    ghost torn: { Self → Self → Type 0 } = { λ _ _. Unit {0} };

    // Which fault a refused call answers, for such a caller.
    ghost blames: { Self → Self → FaultValue → Type 0 } = { λ _ _ _. Unit {0} };

    /// The version of its rows. No row is read, and no memory is taken.
    fn version(&self) -> Version
        ensures { version_of result ≡ version self.now };

    /// The row of a number, blank where none is saved; the version has it. No row is changed.
    ///
    /// A refusal is counted. `Damaged` tells of a row that nobody saves so: another wrote to the store. No clause says that it never comes else.
    fn get(&mut self, number: Number) -> Result<Row, RowsFault>
        ensures row { kept self.new → IfOk result (λ row. row ≡ saved self.old number) }
        ensures same { kept self.new → is_open self.new → SameRows (saved self.old) (saved self.new) }
        ensures fits { IfOk result (RowFits (version self.old)) }
        ensures version { version self.new ≡ version self.old }
        ensures alike { alike self.old self.new }
        ensures answered { Answered kept is_open made refusals blames result self.old self.new };

    /// Saves the row of a number, one that the version has, in place of the one before. No other row is changed.
    ///
    /// A refusal is counted; it leaves the rows as they were, or with this one saved.
    fn put(&mut self, number: Number, row: &Row) -> Result<(), RowsFault>
        requires promise { HasPromise row.now }
        requires fits { RowFits (version self.old) row.now }
        ensures row { kept self.new → OnOk result (WithRow (saved self.old) number row.now (saved self.new)) }
        ensures version { version self.new ≡ version self.old }
        ensures passes { OnOk result (passes self.old self.new) }

        // Where it is refused and still open, the map is one of two.
        ensures either { kept self.new → OnErr result ((¬ is_open self.new) ⊎ IsEither (saved self.old) number row.now (saved self.new)) }
        ensures tells { OnErr result (tells self.old self.new number row.now) }
        ensures answered { Answered kept is_open made refusals blames result self.old self.new };

    /// Goes over to version 2 with every row. At version 2 already an Ok changes nothing.
    ///
    /// A refusal is counted; it leaves each row as it was, and all rows at the version before or all at version 2.
    fn upgrade(&mut self) -> Result<(), RowsFault>
        ensures same { kept self.new → is_open self.new → SameRows (saved self.old) (saved self.new) }
        ensures two { OnOk result (version self.new ≡ Two) }
        ensures upgrades { OnOk result (upgrades self.old self.new) }

        // Where it is refused, the version is one of two.
        ensures either { OnErr result ((version self.new ≡ version self.old) ⊎ (version self.new ≡ Two)) }
        ensures balks { OnErr result (balks self.old self.new) }
        ensures answered { Answered kept is_open made refusals blames result self.old self.new };

    // Rows are kept where the host and the store both gave what they owe, and only there.
    ghost halves: { (s : Self) → kept s ↔ (honest s × made s) };
}
