//! Rows whose saves wait to be saved as one.

ghost use Rattle.std.specs.Prelude.{◌≡◌, ◌≤◌, ◌⊎◌, ◌+◌, [], Some, None, Ok, false, OnOk, OnErr, IsSome, IfSome, IfOk, length, option_copied};
ghost use Rattle.std.specs.Borrow.{LendsIf, sem};
ghost use Rattle.rows_saved.specs.Saved.{RowFits, Rises};
ghost use Rattle.rows_saved.specs.Groups.{PutsAll, last_of};
ghost use Rattle.rows_saved.specs.Grouped.{IsOwnFault, HasSavedGroup, HasTornGroup};

use crate::fault::{RowsFault, refuse};
use crate::rows::Rows;
use crate::saves_all::SavesAll;
use crate::settles::Settles;
use ballots::{Number, Row};
use std::alloc::{AllocError, Global};
use std::marker::Model;
use tape_frames::Version;

/// Rows whose saves wait until they are settled, all by one call. A row that waits is read as if it were saved; where the
/// station ends before, it is lost. So nothing that speaks of it may be handed out until it is settled.
#[derive(Drop)]
pub struct Grouped<R: SavesAll> {
    rows: R,
    waits: Vec<(Number, Row)>,
    answers: bool,
    refusals: u64,
    alloc: Global,
}

impl<R: SavesAll> Model for Grouped<R> {
    ghost use Rattle.rows_saved.specs.Grouped.{GroupedOf, MayBeSaved, grouped_code};

    ghost Value = { GroupedOf R };

    ghost coded = { grouped_code R.code };

    ghost view = { λ s. record { rows = s.rows; waits = s.waits.items; answers = s.answers; refusals = s.refusals } };

    ghost invariant = { λ s. MayBeSaved (R.Rows.kept s.rows → R.Rows.is_open s.rows) (R.Rows.version s.rows) s.waits.items s.answers };
}

impl<R: SavesAll> Grouped<R> {
    ghost use Rattle.rows_saved.specs.Grouped.{saving, with_inside};
    ghost use Rattle.rows_saved.specs.contracts.grouped.Grouped.{the_row};

    /// These rows; nothing waits.
    pub fn new(alloc: Global, rows: R) -> Grouped<R>
        ensures { result ≡ record { rows = rows; waits = []; answers = false; refusals = 0 } }
    {
        Grouped {
            rows,
            waits: Vec::new(alloc),
            answers: false,
            refusals: 0,
            alloc,
        }
    }

    /// The rows inside, which alone are stored.
    pub fn rows(&self) -> &R
        ensures { result.now ≡ self.now.rows }
    {
        &self.rows
    }

    /// The rows inside, given up. What waits is lost.
    pub fn into_rows(self) -> R
        ensures { result ≡ self.rows }
    {
        let Grouped {
            rows,
            waits: _,
            answers: _,
            refusals: _,
            alloc: _,
        } = self;
        rows
    }

    /// The rows inside, lent, while no save waits; `None` while one does. A row is read before the next is saved.
    pub fn rows_mut(&mut self) -> Option<&mut R>
        ensures* writes_back { sem 𝓛 (LendsIf (the_row R.row (saving R.SavesAll.stores R.SavesAll.leaves) R.Rows) R.row self.entry result (with_inside self.old) self.old) }
        ensures value { IfSome result (λ rows. rows.now ≡ self.old.rows) }
        ensures waits { IsSome result → self.old.waits ≡ [] }
        ensures settled { self.old.waits ≡ [] → IsSome result }
    {
        if !self.waits.is_empty() {
            return None;
        }
        self.answers = false;
        Some(&mut self.rows)
    }

    /// How many saves wait.
    pub fn waiting(&self) -> usize
        ensures { result ≡ length self.now.waits }
    {
        self.waits.len()
    }

    /// The row that waits last under a number, lent.
    fn waiting_row(&self, number: Number) -> Option<&Row>
        ensures row { option_copied result ≡ last_of self.now.waits number }
        ensures fits { IfSome (option_copied result) (RowFits (R.Rows.version self.now.rows)) }
    {
        let mut below = self.waits.len();
        while below > 0 {
            below -= 1;
            if number == self.waits[below].0 {
                return Some(&self.waits[below].1);
            }
        }
        None
    }

    /// A copy of the row that waits last under a number, if one does.
    fn copy_waiting(&self, number: Number) -> Result<Option<Row>, AllocError>
        ensures row { IfOk result (λ o. o ≡ last_of self.now.waits number) }
        ensures fits { IfOk result (λ o. IfSome o (RowFits (R.Rows.version self.now.rows))) }
    {
        match self.waiting_row(number) {
            Some(row) => Ok(Some(row.copy(self.alloc)?)),
            None => Ok(None),
        }
    }
}

impl<R: SavesAll> Rows for Grouped<R> {
    ghost use Rattle.rows_saved.specs.Groups.{with_all};

    ghost made = { λ s. R.Rows.made s.rows };

    ghost honest = { λ s. R.Rows.honest s.rows };

    ghost kept = { λ s. R.Rows.kept s.rows };

    ghost is_open = { λ s. R.Rows.is_open s.rows };

    // What waits is read as if it were saved.
    ghost saved = { λ s. with_all (R.Rows.saved s.rows) s.waits };

    ghost version = { λ s. R.Rows.version s.rows };

    ghost refusals = { λ s. R.Rows.refusals s.rows + s.refusals };

    // What waits stays so.
    ghost alike = { λ old new. (new.waits ≡ old.waits) × ((new.rows ≡ old.rows) ⊎ R.Rows.alike old.rows new.rows) };

    // A save changes nothing of the rows inside: this row waits.
    ghost passes = { λ old new. new.rows ≡ old.rows };

    ghost tells = { λ old new _ _. (new.rows ≡ old.rows) × (new.waits ≡ old.waits) };

    ghost upgrades = { λ old new. (old.waits ≡ []) × (new.waits ≡ []) × R.Rows.upgrades old.rows new.rows };

    ghost balks = { λ old new. (new.waits ≡ old.waits) × ((new.rows ≡ old.rows) ⊎ R.Rows.balks old.rows new.rows) };

    // What the rows inside show and tell of the save of all that waited.
    ghost shows = { λ old new. HasSavedGroup R.SavesAll.stores R.SavesAll.leaves old new };

    ghost torn = { λ old new. HasTornGroup R.SavesAll.leaves old new };

    ghost blames = { λ old new fault. IsOwnFault fault ⊎ R.Rows.blames old.rows new.rows fault };

    ghost halves = { λ s. R.Rows.halves s.rows };

    fn version(&self) -> Version {
        self.rows.version()
    }

    fn get(&mut self, number: Number) -> Result<Row, RowsFault> {
        let Ok(waiting) = self.copy_waiting(number) else {
            return Err(refuse(&mut self.refusals, RowsFault::OutOfMemory));
        };
        match waiting {
            Some(row) => {
                if self.answers {
                    Ok(row)
                } else {
                    Err(refuse(&mut self.refusals, RowsFault::Store))
                }
            }
            None => match self.rows.get(number) {
                Ok(row) => {
                    self.answers = true;
                    Ok(row)
                }
                Err(fault) => {
                    self.answers = false;
                    Err(fault)
                }
            },
        }
    }

    fn put(&mut self, number: Number, row: &Row) -> Result<(), RowsFault> {
        if !self.answers {
            return Err(refuse(&mut self.refusals, RowsFault::Store));
        }
        let Ok(copy) = row.copy(self.alloc) else {
            return Err(refuse(&mut self.refusals, RowsFault::OutOfMemory));
        };
        let Ok(()) = self.waits.push((number, copy)) else {
            return Err(refuse(&mut self.refusals, RowsFault::OutOfMemory));
        };
        Ok(())
    }

    /// Refused while a save waits.
    fn upgrade(&mut self) -> Result<(), RowsFault> {
        if !self.waits.is_empty() {
            return Err(refuse(&mut self.refusals, RowsFault::Store));
        }
        match self.rows.upgrade() {
            Ok(()) => {
                self.answers = true;
                Ok(())
            }
            Err(fault) => {
                self.answers = false;
                Err(fault)
            }
        }
    }
}

impl<R: SavesAll> Settles for Grouped<R> {
    ghost use Rattle.std.specs.Prelude.{refl};

    // A crash leaves the rows inside.
    ghost stored = { λ s. R.Rows.saved s.rows };

    ghost is_settled = { λ s. s.waits ≡ [] };

    ghost stored_as_read = { λ s settled n. rw settled refl };

    /// Saves all that waits in the rows inside, by one call; after it nothing waits, however it ends.
    ///
    /// Where it is refused, nothing may be handed out that speaks of a row that waited: none of them is saved, or some of the
    /// first, or all.
    fn settle(&mut self) -> Result<(), RowsFault>
        ensures settled { self.new.waits ≡ [] }
        ensures puts { PutsAll R.Rows result self.old.waits self.old.rows self.new.rows }
        ensures own { self.new.refusals ≡ self.old.refusals }
        ensures cause { OnErr result (Rises (R.Rows.refusals self.old.rows + self.old.refusals) (R.Rows.refusals self.new.rows + self.new.refusals)) }
        ensures counts { R.Rows.refusals self.old.rows + self.old.refusals ≤ R.Rows.refusals self.new.rows + self.new.refusals }

        // Where nothing waits nothing is done.
        ensures nothing { self.old.waits ≡ [] → (result ≡ Ok tt) × (self.new ≡ self.old) }

        // What the rows inside show and tell of the save of all that waited.
        ensures shows { OnOk result (HasSavedGroup R.SavesAll.stores R.SavesAll.leaves self.old self.new) }
        ensures torn { OnErr result (HasTornGroup R.SavesAll.leaves self.old self.new) }
    {
        if self.waits.is_empty() {
            return Ok(());
        }
        match self.rows.put_all(self.waits.as_slice()) {
            Ok(()) => {
                self.waits.clear();
                Ok(())
            }
            Err(fault) => {
                self.waits.clear();
                self.answers = false;
                Err(fault)
            }
        }
    }
}
