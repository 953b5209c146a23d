//! Rows in memory.

ghost use Rattle.std.specs.Prelude.{◌≡◌, ◌≤◌, None, Ok, IfOk, IsOk, OnErr, IfErr, option_copied};
ghost use Rattle.protocol.specs.Rows.{blank};
ghost use Rattle.protocol.specs.Versions.{One, Two};
ghost use Rattle.tape_frames.specs.Entries.{version_of};
ghost use Rattle.rows_saved.specs.Memory.{IsEmpty, Saves};
ghost use Rattle.rows_saved.specs.Saved.{WithRow, RowFits, Rises, or_blank};

use crate::fault::{RowsFault, refuse};
use crate::rows::Rows;
use ballots::{Number, Row};
use std::alloc::{AllocError, Global};
use std::collections::HashMap;
use std::marker::Model;
use std::mem;
use tape_frames::Version;

/// Rows that last as long as the program, each one that their version has. Clauses see the map `saved`.
#[derive(Drop)]
pub struct MemoryRows {
    rows: HashMap<u32, Row>,
    version: Version,
    refusals: u64,
    alloc: Global,
}

impl Model for MemoryRows {
    ghost use Rattle.tape_frames.specs.Entries.{version_of};
    ghost use Rattle.rows_saved.specs.Saved.{AllFit};
    ghost use Rattle.rows_saved.specs.Memory.{MemoryOf, saved_among};

    ghost Value = { MemoryOf };

    ghost view = { λ s. record { entries = s.rows.entries; version = version_of s.version; refusals = s.refusals } };

    ghost invariant = { λ s. AllFit (version_of s.version) (saved_among s.rows.entries) };
}

impl MemoryRows {
    ghost use Rattle.rows_saved.specs.Memory.{saved};

    /// The empty map, at version 1.
    pub fn new(alloc: Global) -> MemoryRows
        ensures { IsEmpty One result }
    {
        MemoryRows::at(alloc, Version::One)
    }

    /// The empty map, at this version.
    pub fn at(alloc: Global, version: Version) -> MemoryRows
        ensures { IsEmpty (version_of version) result }
    {
        MemoryRows {
            rows: HashMap::new(alloc),
            version,
            refusals: 0,
            alloc,
        }
    }

    /// The row of a number, lent; `None` where none is saved.
    pub fn row(&self, number: Number) -> Option<&Row>
        ensures row { or_blank (option_copied result) ≡ saved self.now number }
        ensures fits { RowFits self.now.version (saved self.now number) }
    {
        let key = number.get();
        self.rows.get(&key)
    }

    /// Takes the row of a number out, and leaves a blank one in its place.
    ///
    /// With [`MemoryRows::save`] a row is changed without a copy of its tape.
    pub fn take(&mut self, number: Number) -> Row
        ensures row { result ≡ saved self.old number }
        ensures fits { RowFits self.old.version result }
        ensures blank { WithRow (saved self.old) number blank (saved self.new) }
        ensures rest { self.new ≡ record self.old { entries = self.new.entries } }
    {
        let key = number.get();
        match self.rows.get_mut(&key) {
            Some(row) => mem::replace(row, Row::blank()),
            None => Row::blank(),
        }
    }

    /// Saves the row of a number, one that the version has, in place of the one before, and takes no copy of it.
    ///
    /// Where memory is refused the row is given up and the rows stay.
    pub fn save(&mut self, number: Number, row: Row) -> Result<(), AllocError>
        requires { RowFits self.old.version row }
        ensures { Saves result number row self.old self.new }
    {
        match self.rows.insert(number.get(), row) {
            Ok(_) => Ok(()),
            Err(_) => {
                let _ = refuse(&mut self.refusals, RowsFault::OutOfMemory);
                Err(AllocError)
            }
        }
    }
}

impl Rows for MemoryRows {
    ghost use Rattle.rows_saved.specs.Memory.{saved};
    ghost use Rattle.rows_saved.specs.declared.fault.RowsFault.TheVariants.{OutOfMemory};

    ghost made = { λ _. Unit {0} };

    ghost honest = { λ _. Unit {0} };

    ghost kept = { λ _. Unit {0} };

    ghost is_open = { λ _. Unit {0} };

    ghost saved = { saved };

    ghost version = { λ s. s.version };

    ghost refusals = { λ s. s.refusals };

    ghost blames = { λ _ _ fault. fault ≡ OutOfMemory };

    ghost halves = { λ _. (λ _. (tt, tt), λ _. tt) };

    fn version(&self) -> Version {
        self.version
    }

    fn get(&mut self, number: Number) -> Result<Row, RowsFault>
        ensures row { IfOk result (λ row. row ≡ saved self.old number) }
        ensures fits { IfOk result (RowFits self.old.version) }
        ensures rest { self.new ≡ record self.old { refusals = self.new.refusals } }
        ensures err { IfErr result (λ e. e ≡ RowsFault.OutOfMemory) }
        ensures no_memory { (saved self.old number).vote ≡ None → IsOk result }
        ensures cause { OnErr result (Rises self.old.refusals self.new.refusals) }
        ensures counts { self.old.refusals ≤ self.new.refusals }
    {
        let Some(row) = self.row(number) else {
            return Ok(Row::blank());
        };
        match row.copy(self.alloc) {
            Ok(copy) => Ok(copy),
            Err(_) => { Err(refuse(&mut self.refusals, RowsFault::OutOfMemory)) }
        }
    }

    fn put(&mut self, number: Number, row: &Row) -> Result<(), RowsFault>
        requires { RowFits self.old.version row.now }
        ensures saves { Saves result number row.now self.old self.new }
        ensures err { IfErr result (λ e. e ≡ RowsFault.OutOfMemory) }
    {
        let Ok(copy) = row.copy(self.alloc) else {
            return Err(refuse(&mut self.refusals, RowsFault::OutOfMemory));
        };
        match self.save(number, copy) {
            Ok(()) => Ok(()),
            Err(_) => Err(RowsFault::OutOfMemory),
        }
    }

    /// Never refused: version 2 has a row for each entry. No memory is taken.
    #[tactic(auto, using(crate::proofs::Fitting::two_fits_all))]
    fn upgrade(&mut self) -> Result<(), RowsFault>
        ensures ok { result ≡ Ok tt }
        ensures goes_over { self.new ≡ record self.old { version = Two } }
    {
        self.version = Version::Two;
        Ok(())
    }
}
