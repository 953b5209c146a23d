//! The laws that join rows in files to a day. The functions do nothing but cite the laws that they rest on.

ghost use Rattle.database_days.specs.Starting.{StartsHandOver};
ghost use Rattle.database_days.specs.Grouping.{GroupsHandOver, watched_rows};
ghost use Rattle.database_days.specs.GroupSteps.{GroupsAreTaken};
ghost use Rattle.database_days.specs.Restarting.{GroupsGoOn, UpgradesGoOn};
ghost use Rattle.station.specs.Stations.{sight};

use acceptor_store::{SqliteRows, laws};
use process_days::laws::next_processes_begin;
use rows_host_files::{Watch, Watched};
use rows_saved::{Grouped, Rows};
use sqlite::FileStore;
use sqlite_disk::Disk;

/// Crash, start, open: however a process ended, and however many starts were cut off before one opened its files, that one finds of its
/// rows what a day allows. These are the rows from before the call that was cut off, or from behind it. `D` are the disks before, `E`
/// those of the start that opens them.
pub fn starts_hand_over<D: Disk + Drop, E: Disk + Drop>()
    ensures { StartsHandOver D D.Disk E E.Disk (sight ⟦<SqliteRows<FileStore<D>> as Rows>⟧) }
{
    laws::what_is_begun_is_found::<D, E>();
}

/// The same of a process that saves its steps in groups, over rows that are watched. What is found is what a day allows after a process at rest: its
/// station's rows before the last group, or after all of it. After an upgrade it is what a day allows then.
pub fn groups_hand_over<D: Disk + Drop, E: Disk + Drop, W: Watch>()
    ensures { GroupsHandOver D D.Disk E E.Disk watched_rows (sight ⟦<Grouped<Watched<SqliteRows<FileStore<D>>, W>> as Rows>⟧) }
{
    laws::what_is_begun_is_found::<D, E>();
}

/// Steps of a station over grouped rows that are watched read the rows in the database at most, until what they saved is saved as one. Then the station
/// is between two groups again. If that save is refused, the rows in the database were in it, or nobody asked them, since their file was gone from its
/// path. An upgrade between two groups leaves all rows, at either version.
pub fn groups_are_taken<D: Disk + Drop, W: Watch>()
    ensures { GroupsAreTaken D D.Disk watched_rows (⟦<Grouped<Watched<SqliteRows<FileStore<D>>, W>> as Rows>⟧) }
{}

/// A process over grouped rows in a database that is watched, as `run` and `serve` have them, may end in any way: killed or with its machine, between two
/// calls, in a step or in a save, or by a save that is refused. The next start over its files finds the rows from before the last group, or from behind
/// all of it, and goes on in the same day. It does so behind an upgrade, too, with all rows at either version.
pub fn the_day_goes_on<D: Disk + Drop, W: Watch>()
    ensures groups { GroupsGoOn D D.Disk watched_rows (⟦<Grouped<Watched<SqliteRows<FileStore<D>>, W>> as Rows>⟧) }
    ensures upgrades { UpgradesGoOn D D.Disk watched_rows (⟦<Grouped<Watched<SqliteRows<FileStore<D>>, W>> as Rows>⟧) }
{
    groups_are_taken::<D, W>();
    groups_hand_over::<D, D, W>();
    next_processes_begin::<Grouped<Watched<SqliteRows<FileStore<D>>, W>>>();
}
