//! Rows in a database.

ghost use Rattle.std.specs.Prelude.{◌≡◌, ◌≤◌, ◌⊎◌, ℕ, true, false, List, None, Err, IsTrue, IfOk, IfErr, OnOk, OnErr};
ghost use Rattle.protocol.specs.Rows.{Row as RowValue};
ghost use Rattle.tape_frames.specs.Entries.{version_of};
ghost use Rattle.rows_table.specs.Tables.{no_schema};
ghost use Rattle.rows_saved.specs.Identity.{IsIdentity};
ghost use Rattle.protocol.specs.Versions.{Two};
ghost use Rattle.acceptor_store.specs.FoundTables.{has_any};
ghost use Rattle.acceptor_store.specs.Layouts.{upgraded_from};
ghost use Rattle.acceptor_store.specs.Sqlite.{rows_version};
ghost use Rattle.acceptor_store.specs.Calls.{GivesAll, GivesRow, IsCalled, Reads, SavesOrStops, in_database};
ghost use Rattle.acceptor_store.specs.Reading.{SeesAll, SeesFront};
ghost use Rattle.rows_saved.specs.Groups.{AreRowsOf, PutsAll};
ghost use Rattle.rows_saved.specs.Saved.{SameRows, WithRow, HasPromise, RowFits, Rises};

use crate::faults::{FileFault, making_fault_of};
use crate::found_tables::has_any;
use crate::group::save_all;
use crate::layout::{made_in, upgraded_from, version_in};
use crate::make_tables::make_tables;
use crate::opening::test_database;
use crate::reading::{RowVisitor, show_all};
use crate::statements::{Numbered, fault_of, list, read, save};
use crate::upgrade::upgrade_rows;
use ballots::{Number, Row};
use rows_saved::{Identity, Rows, RowsFault, SavesAll, Settles};
use rows_table::Layout;
use sqlite::{Alter, Connection};
use sqlite_schema::schema::Schema;
use std::alloc::Global;
use std::marker::Model;
use tape_frames::Version;

/// Stops rows of which a call was refused, and counts the refusal.
fn stop(stopped: &mut bool, refusals: &mut u64)
    ensures stops { IsTrue stopped.new }
    ensures counts { Rises refusals.old refusals.new }
    ensures grows { refusals.old ≤ refusals.new }
{
    *stopped = true;
    *refusals = refusals.saturating_add(1);
}

/// Rows in a database, beside the table `station` that says whose they are. At version 1 their layout is 1: they are in
/// the table `acceptor_row`, and a vote in it is for a tape of at most 4,096 frames. At version 2 their layout is 2: they
/// are in the table `acceptor_entry`, and a vote in it is for any entry. [`Rows::upgrade`] upgrades layout 1 to layout 2;
/// the table `acceptor_row` stays then as it was, and is not read again.
///
/// They are kept where their tables are those that [`SqliteRows::create`] makes or an upgrade leaves, and no others, and the
/// disk has returned what was written. The first is the store's to give: `create` in an empty database makes them so,
/// [`SqliteRows::open`] finds them so, and no call takes it back. The second is the host's: it holds as long as
/// the disk doesn't fail and nobody else writes to the database.
///
/// After a refused `put` or `upgrade` every call answers `Store`, until the rows are opened anew: so nothing is answered
/// from a row that a crash could still take back. A connection over a file is then to be closed, and the file
/// opened again.
#[derive(Drop)]
pub struct SqliteRows<S: Alter + Drop> {
    conn: Connection<S>,
    identity: Identity,
    // Its tables were found, or were made in an empty database.
    alone: bool,
    // The schema as it was found.
    found: Option<Schema>,
    // The layout that was found or made.
    was: Layout,
    // The layout that the rows are in.
    layout: Layout,
    // A save or an upgrade was refused.
    stopped: bool,
    refusals: u64,
    alloc: Global,
}

impl<S: Alter + Drop> Model for SqliteRows<S> {
    ghost use Rattle.acceptor_store.specs.Sqlite.{SqliteOf, sqlite_code, IsServing, StemsFrom};

    ghost Value = { SqliteOf S };

    ghost coded = { sqlite_code S.code };

    ghost view = { λ s. record {
      conn = s.conn;
      identity = s.identity;
      alone = s.alone;
      found = s.found;
      was = s.was;
      layout = s.layout;
      stopped = s.stopped;
      refusals = s.refusals;
    } };

    ghost invariant = { λ s. StemsFrom s.was s.layout × IsServing S.Store s.conn s.identity s.alone s.was s.found s.layout s.stopped };
}

/// Whether a database has no table, index or view.
fn is_empty(schema: &Schema) -> bool
    ensures empty { IsTrue result → schema.now ≡ no_schema }
    ensures full { schema.now ≡ no_schema → IsTrue result }
{
    schema.tables.len() == 0 && schema.indexes.len() == 0 && schema.views.len() == 0
}

impl<S: Alter + Drop> SqliteRows<S> {
    ghost use Rattle.acceptor_store.specs.Sqlite.{IsAtRest, IsKept, IsOpen, IsOurs, Stands, StemsFrom, saved_of};
    ghost use Rattle.acceptor_store.specs.Taking.{IsMadeFor, MakesRows, OpensAsStored, RefusesStored, RefusesToMake};
    ghost use Rattle.sqlite.specs.Held.{state};

    /// Makes the two tables of this version's layout in one transaction: the empty map of this station.
    ///
    /// `Store` where a table of saved rows is there, of whichever layout, the connection is in a transaction, or a
    /// statement was refused; `OutOfMemory`. Then nothing is changed, and the connection comes back. A crash leaves the
    /// database as it was, or with both tables and the identity.
    pub fn create(
        alloc: Global,
        conn: Connection<S>,
        identity: Identity,
        version: Version,
    ) -> Result<SqliteRows<S>, (RowsFault, Connection<S>)>
        requires { IsIdentity identity }
        ensures made { IfOk result (IsMadeFor S.Store identity (version_of version) (state S.Store conn)) }

        // Over a table of saved rows nothing is made, and the database comes back as it was.
        ensures over { IsTrue (has_any (state S.Store conn).now.schema) → result ≡ Err (RowsFault.Store, conn) }

        // A refusal changes nothing.
        ensures refused { IfErr result (λ e. RefusesToMake S.Store identity (version_of version) e.0 conn e.1) }
    {
        match SqliteRows::make(alloc, conn, identity, version) {
            Ok(rows) => Ok(rows),
            Err((fault, conn)) => Err((fault.rows_fault(), conn)),
        }
    }

    /// The tables are made as by [`SqliteRows::create`], and a disk that has no room for them is told as such.
    pub(crate) fn make(
        alloc: Global,
        mut conn: Connection<S>,
        station: Identity,
        version: Version,
    ) -> Result<SqliteRows<S>, (FileFault, Connection<S>)>
        requires { IsIdentity station }
        ensures { MakesRows S.Store station (version_of version) conn result }
    {
        if !conn.is_autocommit() || has_any(conn.schema()) {
            return Err((FileFault::Rows(RowsFault::Store), conn));
        }
        let alone = is_empty(conn.schema());
        if let Err(error) = make_tables(&mut conn, station, version) {
            return Err((making_fault_of(&error), conn));
        }
        // What the database lists is known once it is read.
        let _tables = conn.schema();
        let layout = made_in(version);
        Ok(SqliteRows {
            conn,
            identity: station,
            alone,
            found: None,
            was: layout,
            layout,
            stopped: false,
            refusals: 0,
            alloc,
        })
    }

    /// Takes up the rows that a database holds, in layout 1 or 2. No row is written.
    ///
    /// `Store` where the connection is in a transaction or the database refuses a statement, as without the
    /// tables. Then `WrongSchema` where the table `station` has no row, another layout, or values that are
    /// no identity; `WrongStation` where its identity is another than the one given, if any; and `Damaged`
    /// with the least key that is no circuit number or whose columns are no row. `OutOfMemory` stands where
    /// memory was refused. The connection comes back with the fault.
    pub fn open(
        alloc: Global,
        mut conn: Connection<S>,
        given: Option<Identity>,
    ) -> Result<SqliteRows<S>, (RowsFault, Connection<S>)>
        ensures taken { IfOk result (OpensAsStored S.Store given (state S.Store conn)) }

        // Why it is refused; nothing is changed then either.
        ensures refused { IfErr result (λ e. RefusesStored given e.0 (state S.Store conn) (state S.Store e.1)) }
    {
        if !conn.is_autocommit() {
            return Err((RowsFault::Store, conn));
        }
        let found = match conn.schema().copy(alloc) {
            Ok(schema) => schema,
            Err(_) => return Err((RowsFault::OutOfMemory, conn)),
        };
        match test_database(&mut conn, given) {
            Ok(tested) => Ok(SqliteRows {
                conn,
                identity: tested.1,
                alone: true,
                found: Some(found),
                was: tested.0,
                layout: tested.0,
                stopped: false,
                refusals: 0,
                alloc,
            }),
            Err(fault) => Err((fault, conn)),
        }
    }

    /// All rows that are saved, in order of their numbers; their version has each. No row is changed.
    ///
    /// A refusal is counted: `Store` after a refused `put` or `upgrade`, or where the statement was refused; `OutOfMemory`;
    /// `Damaged` of a row that nobody saves so, as where another wrote to the database.
    pub fn all(&mut self) -> Result<Vec<(Number, Row)>, RowsFault>
        ensures { GivesAll S.Store result self.old self.new }
    {
        if self.stopped {
            self.refusals = self.refusals.saturating_add(1);
            return Err(RowsFault::Store);
        }
        match list(self.alloc, &mut self.conn, self.layout) {
            Ok(rows) => Ok(rows),
            Err(fault) => {
                self.refusals = self.refusals.saturating_add(1);
                Err(fault)
            }
        }
    }

    /// Shows all rows that are saved to a visitor, one by one and in order of their numbers, and answers whether it has seen all of them. No row is changed.
    ///
    /// It has not where it wanted no more. A refusal is counted, as one of [`SqliteRows::all`] is, and may come after some
    /// rows: the visitor has then seen those before the first that is damaged or could not be read. No list of the rows is kept.
    pub fn visit<V: RowVisitor>(&mut self, visitor: &mut V) -> Result<bool, RowsFault>
        ensures rows { IsKept S.Store self.new → IfOk result (λ all. IsTrue all → SeesAll V.saw visitor.old visitor.new (saved_of S.Store self.old)) }
        ensures enough { IfOk result (λ all. all ≡ false → V.has_enough visitor.new) }

        // However it ends, the visitor has seen the first rows, or is as it was.
        ensures front { IsKept S.Store self.new → SeesFront V.saw visitor.old visitor.new (saved_of S.Store self.old) }

        // Whoever wrote to the database, it has seen some rows, and nothing else.
        ensures only { (items : List (ℕ × RowValue)) × V.saw visitor.old visitor.new items }
        ensures stopped { IsTrue self.old.stopped → (result ≡ Err RowsFault.Store) × (visitor.new ≡ visitor.old) }
        ensures reads { Reads S.Store result self.old self.new }
    {
        if self.stopped {
            self.refusals = self.refusals.saturating_add(1);
            return Err(RowsFault::Store);
        }
        match show_all(self.alloc, &mut self.conn, self.layout, visitor) {
            Ok(all) => Ok(all),
            Err(fault) => {
                self.refusals = self.refusals.saturating_add(1);
                Err(fault)
            }
        }
    }

    /// A law, which does nothing: rows that are kept, open and not stopped are at rest, whatever was called of them before.
    pub fn are_at_rest(&self)
        ensures { IsKept S.Store self.now → IsOpen S.Store self.now → self.now.stopped ≡ false → IsAtRest S.Store self.now }
    {
        // What rows keep true of themselves is known once they are looked into.
        let _stopped = self.stopped;
    }

    /// A law, which does nothing: rows are in the layout that was found or made, or in the one that it was upgraded to.
    pub fn layout_stems(&self)
        ensures { StemsFrom self.now.was self.now.layout }
    {
        let _stopped = self.stopped;
    }

    /// The station that the rows belong to.
    pub fn identity(&self) -> Identity
        ensures { result ≡ self.now.identity }
    {
        self.identity
    }

    /// The connection, given back.
    pub fn into_connection(self) -> Connection<S>
        ensures connection { result ≡ self.conn }
        ensures stands { self.stopped ≡ false → IsOurs self.alone self.was self.found → Stands S.Store self.layout self.conn self.identity }
    {
        let SqliteRows {
            conn,
            identity: _,
            alone: _,
            found: _,
            was: _,
            layout: _,
            stopped: _,
            refusals: _,
            alloc: _,
        } = self;
        conn
    }
}

impl<S: Alter + Drop> Rows for SqliteRows<S> {
    ghost use Rattle.acceptor_store.specs.Sqlite.{AreLeftAsRead, IsKept, IsOpen, IsHonest, IsOurs, saved_of, LeavesInUpgrade, LeavesStation, Blames};
    ghost use Rattle.acceptor_store.specs.Sqlite.{HoldsEither, LeavesEither, LeavesItsStation, LeavesSameRows, LeavesWithRow};

    ghost made = { λ s. IsOurs s.alone s.was s.found };

    ghost honest = { IsHonest S.Store };

    ghost kept = { IsKept S.Store };

    ghost is_open = { IsOpen S.Store };

    ghost saved = { saved_of S.Store };

    ghost version = { rows_version };

    ghost refusals = { λ s. s.refusals };

    // A reading leaves the station, its layout and its rows, and a crash no other.
    ghost alike = { AreLeftAsRead S.Store };

    // An upgrade leaves the station and the map, whether it is refused or not.
    ghost upgrades = { LeavesInUpgrade S.Store };

    ghost balks = { LeavesInUpgrade S.Store };

    ghost blames = { Blames S.Store };

    ghost halves = { λ _. (λ both. both, λ both. both) };

    fn version(&self) -> Version {
        version_in(self.layout)
    }

    fn get(&mut self, number: Number) -> Result<Row, RowsFault>
        ensures { GivesRow S.Store number result self.old self.new }
    {
        if self.stopped {
            self.refusals = self.refusals.saturating_add(1);
            return Err(RowsFault::Store);
        }
        match read(self.alloc, &mut self.conn, self.layout, number) {
            Ok(row) => Ok(row),
            Err(fault) => {
                self.refusals = self.refusals.saturating_add(1);
                Err(fault)
            }
        }
    }

    fn put(&mut self, number: Number, row: &Row) -> Result<(), RowsFault>
        requires promise { HasPromise row.now }
        requires fits { RowFits (rows_version self.old) row.now }
        ensures row { IsKept S.Store self.new → OnOk result (WithRow (saved_of S.Store self.old) number row.now (saved_of S.Store self.new)) }
        ensures either { IsKept S.Store self.new → OnErr result (HoldsEither S.Store number row.now self.old self.new) }
        ensures saves { SavesOrStops S.Store result self.old self.new }

        // After the Ok a crash leaves this row too; after an Err the rows as they were, or with this one.
        ensures crash_ok { IsKept S.Store self.new → OnOk result (LeavesWithRow S.Store number row.now self.old self.new) }
        ensures crash_err { IsKept S.Store self.new → LeavesEither S.Store number row.now self.old self.new }

        // And the station as it was.
        ensures crash_station { IsKept S.Store self.new → LeavesItsStation S.Store self.old self.new }
    {
        if self.stopped {
            self.refusals = self.refusals.saturating_add(1);
            return Err(RowsFault::Store);
        }
        match save(
            self.alloc,
            &mut self.conn,
            self.layout,
            Numbered { number, row },
        ) {
            Ok(()) => Ok(()),
            Err(fault) => {
                // Whether the row is saved is not known.
                stop(&mut self.stopped, &mut self.refusals);
                Err(fault)
            }
        }
    }

    fn upgrade(&mut self) -> Result<(), RowsFault>
        ensures same { IsKept S.Store self.new → IsOpen S.Store self.new → SameRows (saved_of S.Store self.old) (saved_of S.Store self.new) }
        ensures two { OnOk result (rows_version self.new ≡ Two) }
        ensures either { OnErr result ((rows_version self.new ≡ rows_version self.old) ⊎ (rows_version self.new ≡ Two)) }
        ensures call { IsCalled S.Store result self.old self.new }

        // A refused upgrade stops it, and its layout stays.
        ensures stops { OnErr result (IsTrue self.new.stopped × (self.new.layout ≡ self.old.layout)) }
        ensures goes_on { OnOk result (self.new.stopped ≡ self.old.stopped) }
        ensures upgraded { OnOk result (self.new.layout ≡ upgraded_from self.old.layout) }

        // Whatever comes of it, a crash leaves the station and its map, all in the one layout or all in the other; after the Ok in layout 2.
        ensures crash { LeavesInUpgrade S.Store self.old self.new }
        ensures upgrades { OnOk result (LeavesInUpgrade S.Store self.old self.new) }
        ensures balks { OnErr result (LeavesInUpgrade S.Store self.old self.new) }
        ensures crash_ok { IsKept S.Store self.new → OnOk result (LeavesSameRows S.Store self.old self.new) }
        ensures crash_station { IsKept S.Store self.new → OnOk result (LeavesStation S.Store self.new self.old.identity) }
    {
        if self.stopped {
            self.refusals = self.refusals.saturating_add(1);
            return Err(RowsFault::Store);
        }
        match upgrade_rows(self.alloc, &mut self.conn, self.layout) {
            Ok(()) => {
                self.layout = upgraded_from(self.layout);
                Ok(())
            }
            Err(fault) => {
                // In which layout the rows are is not known.
                stop(&mut self.stopped, &mut self.refusals);
                Err(fault)
            }
        }
    }
}

impl<S: Alter + Drop> SavesAll for SqliteRows<S> {
    ghost use Rattle.acceptor_store.specs.Sqlite.{IsKept};
    ghost use Rattle.acceptor_store.specs.Grouping.{HoldsAllOrNone, LeavesTogether, ShowsAllSaved};

    // The Ok stops nothing, and after it a crash leaves all of these rows.
    ghost stores = { ShowsAllSaved S.Store };

    // After an Err, and in the call, it leaves all or none; and the station and the layout as they were.
    ghost leaves = { LeavesTogether S.Store };

    /// All or none, in one transaction.
    fn put_all(&mut self, items: &[(Number, Row)]) -> Result<(), RowsFault>
        requires { AreRowsOf (rows_version self.old) items.now }
        ensures puts { PutsAll (in_database S.Store) result items.now self.old self.new }
        ensures stores { OnOk result (ShowsAllSaved S.Store self.old self.new items.now) }
        ensures leaves { LeavesTogether S.Store self.old self.new items.now }
        ensures all_or_none { IsKept S.Store self.new → OnErr result (HoldsAllOrNone S.Store items.now self.old self.new) }
        ensures saves { SavesOrStops S.Store result self.old self.new }
    {
        if self.stopped {
            self.refusals = self.refusals.saturating_add(1);
            return Err(RowsFault::Store);
        }
        match save_all(self.alloc, &mut self.conn, self.layout, items) {
            Ok(()) => Ok(()),
            Err(fault) => {
                // Whether the rows are saved is not known.
                stop(&mut self.stopped, &mut self.refusals);
                Err(fault)
            }
        }
    }
}

/// Each save is stored at once.
impl<S: Alter + Drop> Settles for SqliteRows<S> {
    ghost use Rattle.std.specs.Prelude.{refl};
    ghost use Rattle.acceptor_store.specs.Sqlite.{saved_of};

    ghost stored = { saved_of S.Store };

    ghost is_settled = { λ _. Unit {0} };

    ghost stored_as_read = { λ s settled n. refl };

    fn settle(&mut self) -> Result<(), RowsFault> {
        Ok(())
    }
}
