//! Rows that are saved only behind a look that found their file at its path.

ghost use Rattle.std.specs.Prelude.{◌≡◌, ◌≤◌, ◌⊎◌, ◌+◌, ℕ, true, false, IsTrue};
ghost use Rattle.rows_saved.specs.Saved.{Rises};
ghost use Rattle.rows_host_files.specs.Watching.{HasFound, HasLooked, IsRefusedUnseen, TellsBehindLook};

use ballots::{Number, Row};
use rows_files::RowsCause;
use rows_saved::{Rows, RowsFault, SavesAll};
use tape_frames::Version;

/// What tells whether a row file that is open stands at its path.
pub trait Watch: Drop {
    // How many looks found it there.
    ghost looks: { Self → ℕ };

    /// Whether it stands there now.
    fn stands(&mut self) -> bool
        ensures found { IsTrue result → Rises (looks self.old) (looks self.new) };

    /// Keeps what the file holds beside its path, where something else stands now, and tells what came of that.
    fn keep(self) -> RowsCause;
}

/// Rows, and what watches their file. Once it was not found at its path nothing is saved any more.
#[derive(Drop)]
pub struct Watched<R: Rows, W: Watch> {
    pub(crate) rows: R,
    pub(crate) watch: W,
    /// A look did not find the file at its path.
    pub(crate) is_gone: bool,
    /// How many saves were refused for that.
    pub(crate) refusals: u64,
}

/// Whether a file stands at its path now, as at each look before.
pub(crate) fn stands<W: Watch>(watch: &mut W, is_gone: &mut bool) -> bool
    ensures found { IsTrue result → HasFound W.looks watch.old watch.new is_gone.old is_gone.new }
    ensures gone { result ≡ false → is_gone.new ≡ true }
{
    if *is_gone {
        return false;
    }
    let found = watch.stands();
    *is_gone = !found;
    found
}

/// Counts a save that is refused since the file does not stand at its path.
fn refuse(refusals: &mut u64) -> RowsFault
    ensures fault { result ≡ RowsFault.Store }
    ensures rises { Rises refusals.old refusals.new }
    ensures not_less { refusals.old ≤ refusals.new }
{
    *refusals = refusals.saturating_add(1);
    RowsFault::Store
}

impl<R: Rows, W: Watch> Rows for Watched<R, W> {
    ghost made = { λ s. R.made s.rows };

    ghost honest = { λ s. R.honest s.rows };

    ghost kept = { λ s. R.kept s.rows };

    ghost is_open = { λ s. R.is_open s.rows };

    ghost saved = { λ s. R.saved s.rows };

    ghost version = { λ s. R.version s.rows };

    ghost refusals = { λ s. R.refusals s.rows + s.refusals };

    // A reading looks at no path.
    ghost alike = { λ old new. (new.watch ≡ old.watch) × (new.is_gone ≡ old.is_gone) × R.alike old.rows new.rows };

    // A save is behind a look that found the file.
    ghost passes = { λ old new. HasLooked W.looks old new × R.passes old.rows new.rows };

    // One that is refused was not passed on, or the rows inside refused it.
    ghost tells = { λ old new number row. TellsBehindLook W.looks old new (R.tells old.rows new.rows number row) };

    ghost upgrades = { λ old new. HasLooked W.looks old new × R.upgrades old.rows new.rows };

    ghost balks = { λ old new. TellsBehindLook W.looks old new (R.balks old.rows new.rows) };

    ghost blames = { λ old new fault. IsRefusedUnseen old new fault ⊎ R.blames old.rows new.rows fault };

    ghost halves = { λ s. R.halves s.rows };

    fn version(&self) -> Version {
        self.rows.version()
    }

    fn get(&mut self, number: Number) -> Result<Row, RowsFault> {
        self.rows.get(number)
    }

    fn put(&mut self, number: Number, row: &Row) -> Result<(), RowsFault> {
        if !stands(&mut self.watch, &mut self.is_gone) {
            return Err(refuse(&mut self.refusals));
        }
        self.rows.put(number, row)
    }

    fn upgrade(&mut self) -> Result<(), RowsFault> {
        if !stands(&mut self.watch, &mut self.is_gone) {
            return Err(refuse(&mut self.refusals));
        }
        self.rows.upgrade()
    }
}

impl<R: SavesAll, W: Watch> SavesAll for Watched<R, W> {
    // All were saved behind a look that found the file.
    ghost stores = { λ old new items. HasLooked W.looks old new × R.SavesAll.stores old.rows new.rows items };

    // None was passed on, or the rows inside tell what is left.
    ghost leaves = { λ old new items. TellsBehindLook W.looks old new (R.SavesAll.leaves old.rows new.rows items) };

    fn put_all(&mut self, items: &[(Number, Row)]) -> Result<(), RowsFault> {
        if !stands(&mut self.watch, &mut self.is_gone) {
            return Err(refuse(&mut self.refusals));
        }
        self.rows.put_all(items)
    }
}
