//! Rows of which one save, or one upgrade, can be refused.

ghost use Rattle.std.specs.Prelude.{◌≡◌, ◌≤◌, ◌⊎◌, ◌+◌, None, Some, true, false, IsSome};
ghost use Rattle.rows_saved.specs.Saved.{Rises};
ghost use Rattle.rows_saved.specs.Blaming.{TellsArming, BalksArming};

use crate::fault::{RowsFault, refuse};
use crate::rows::Rows;
use ballots::{Number, Row};
use tape_frames::Version;

/// Rows whose next save can be made to be refused, to rehearse a store that fails. An upgrade counts as a save.
/// Clauses see the rows inside, how it is armed, and how many saves it refused itself.
#[derive(Drop)]
pub struct Balky<R: Rows> {
    rows: R,
    armed: Option<bool>,
    refusals: u64,
}

impl<R: Rows> Balky<R> {
    /// These rows, unarmed.
    pub fn new(rows: R) -> Balky<R>
        ensures { result ≡ record { rows = rows; armed = None; refusals = 0 } }
    {
        Balky {
            rows,
            armed: None,
            refusals: 0,
        }
    }

    /// The next save is refused as `Store`: after it was passed on where `saved`, else without.
    /// Of two calls the last counts.
    pub fn arm(&mut self, saved: bool)
        ensures { self.new ≡ record self.old { armed = Some saved } }
    {
        self.armed = Some(saved);
    }

    /// The rows inside.
    pub fn rows(&self) -> &R
        ensures { result.now ≡ self.now.rows }
    {
        &self.rows
    }

    /// The rows inside, given up.
    pub fn into_rows(self) -> R
        ensures { result ≡ self.rows }
    {
        let Balky {
            rows,
            armed: _,
            refusals: _,
        } = self;
        rows
    }

    /// How it was armed; it is unarmed from now on.
    fn disarm(&mut self) -> Option<bool>
        ensures armed { result ≡ self.old.armed }
        ensures unarmed { self.new ≡ record self.old { armed = None } }
    {
        let armed = self.armed;
        self.armed = None;
        armed
    }
}

impl<R: Rows> Rows for Balky<R> {
    ghost use Rattle.rows_saved.specs.declared.fault.RowsFault.TheVariants.{Store};

    ghost made = { λ s. R.made s.rows };

    ghost honest = { λ s. R.honest s.rows };

    ghost kept = { λ s. R.kept s.rows };

    ghost is_open = { λ s. R.is_open s.rows };

    ghost saved = { λ s. R.saved s.rows };

    ghost version = { λ s. R.version s.rows };

    ghost refusals = { λ s. R.refusals s.rows + s.refusals };

    // A reading leaves it armed as it was.
    ghost alike = { λ old new. (new.armed ≡ old.armed) × (R.refusals old.rows ≤ R.refusals new.rows) × R.alike old.rows new.rows };

    // Only unarmed it saves.
    ghost passes = { λ old new. (old.armed ≡ None) × (new.armed ≡ None) × R.passes old.rows new.rows };

    // A refused save leaves it unarmed. Armed as unsaved it passed nothing on, and unarmed it tells what its rows do.
    // Armed as saved the row is saved, or its rows refused it too.
    ghost tells = { λ old new number row. TellsArming R.Rows old new number row };

    // Only unarmed it goes over.
    ghost upgrades = { λ old new. (old.armed ≡ None) × (new.armed ≡ None) × R.upgrades old.rows new.rows };

    // A refused upgrade leaves it unarmed. Armed as unsaved it passed nothing on, and unarmed it tells what its rows do.
    // Armed as saved the rows went over, or they refused it too.
    ghost balks = { λ old new. BalksArming R.Rows old new };

    // An armed one refuses a save as its own fault, and is unarmed by it. Else it is armed as it was, and its rows
    // refused and answer for theirs.
    ghost blames = { λ old new fault. (R.refusals old.rows ≤ R.refusals new.rows)
        × ((IsSome old.armed × (new.armed ≡ None) × (fault ≡ Store))
        ⊎ ((new.armed ≡ old.armed) × Rises (R.refusals old.rows) (R.refusals new.rows) × R.blames old.rows new.rows fault)) };

    ghost halves = { λ s. R.halves s.rows };

    fn version(&self) -> Version {
        self.rows.version()
    }

    fn get(&mut self, number: Number) -> Result<Row, RowsFault> {
        self.rows.get(number)
    }

    /// An armed one refuses this save, and is unarmed by it.
    fn put(&mut self, number: Number, row: &Row) -> Result<(), RowsFault> {
        let Some(saved) = self.disarm() else {
            return self.rows.put(number, row);
        };
        if saved {
            let _ = self.rows.put(number, row);
        }
        Err(refuse(&mut self.refusals, RowsFault::Store))
    }

    /// An armed one refuses this upgrade, and is unarmed by it.
    fn upgrade(&mut self) -> Result<(), RowsFault> {
        let Some(passes_on) = self.disarm() else {
            return self.rows.upgrade();
        };
        if passes_on {
            let _ = self.rows.upgrade();
        }
        Err(refuse(&mut self.refusals, RowsFault::Store))
    }
}
