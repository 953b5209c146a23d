//! Laws over what a crash leaves and what an open finds. The functions do nothing: their contracts are the laws.
//! `D` are the disks before the crash, `E` those of the next start.

ghost use Rattle.acceptor_store.specs.Acknowledged.{AcknowledgedSaveIsFound, CrashAtRestIsRestart, CrashAtRestLosesNothing, LeavesRowsAtRest};
ghost use Rattle.acceptor_store.specs.Begun.{OpensWhatIsBegun, BegunAtRestLosesNothing, GroupOutlivesBegun, UpgradeOutlivesBegun};
ghost use Rattle.acceptor_store.specs.Restarts.{OpensWhatIsLeft, PutOutlivesCrash, GroupOutlivesCrash, GroupIsFound, UpgradeOutlivesCrash, CreateOutlivesCrash};
ghost use Rattle.acceptor_store.specs.Steps.{CrashIsTwoSteps, GroupCrashIsARestart, UpgradeCrashIsTwoSteps};

use sqlite::Alter;
use sqlite_disk::Disk;

/// An open of what a crash left finds rows that the crash could leave, of the same station.
pub fn what_is_left_is_found<D: Disk, E: Disk>()
    ensures { OpensWhatIsLeft D D.Disk E E.Disk }
{}

/// The same of an open of files that hold all that a crash left, except the user version: lives of them were begun or ended in between.
pub fn what_is_begun_is_found<D: Disk, E: Disk>()
    ensures found { OpensWhatIsBegun D D.Disk E E.Disk }
    ensures group { GroupOutlivesBegun D D.Disk E E.Disk }
    ensures rest { BegunAtRestLosesNothing D D.Disk E E.Disk }
    ensures upgrade { UpgradeOutlivesBegun D D.Disk E E.Disk }
{}

/// After a crash in a save an open finds the rows that a torn step leaves: those before it, or those with the new row.
pub fn a_save_outlives_crashes<D: Disk, E: Disk>()
    ensures { PutOutlivesCrash D D.Disk E E.Disk }
{}

/// After a crash in an upgrade, or after it, an open finds the rows as they were, in the one layout or in the other.
pub fn an_upgrade_outlives_crashes<D: Disk, E: Disk>()
    ensures { UpgradeOutlivesCrash D D.Disk E E.Disk }
{}

/// After a crash while the tables were made, in a database that had no station, an open that takes up tables of the store's
/// own finds the station that they were made for, and no row.
pub fn tables_outlive_crashes<D: Disk, E: Disk>()
    ensures { CreateOutlivesCrash D D.Disk E E.Disk }
{}

/// A crash of a station in a save, and its next start, are the torn step and the restart of a circuit.
pub fn a_crash_is_two_steps<D, G, F>()
    ensures { CrashIsTwoSteps D G F }
{}

/// A crash of a station as it goes over, and its next start, are the torn upgrade and the restart of a circuit.
pub fn an_upgrade_crash_is_two_steps<D, G, F>()
    ensures { UpgradeCrashIsTwoSteps D G F }
{}

/// After a save that was answered Ok, and calls that save nothing under its number, the next start finds its row.
pub fn an_acknowledged_save_is_found<D: Disk, E: Disk>()
    ensures { AcknowledgedSaveIsFound D D.Disk E E.Disk }
{}

/// A crash of rows at rest, and the next start, are the restart of a circuit: the same station has the same rows, at the
/// same version.
pub fn a_crash_at_rest_is_a_restart<D: Disk, E: Disk, B, G, F>()
    ensures found { CrashAtRestLosesNothing D D.Disk E E.Disk }
    ensures restart { CrashAtRestIsRestart D D.Disk E E.Disk B G F }
{}

/// A save, one of rows together and an upgrade that are answered Ok leave rows at rest, and so does a reading of rows at rest, while they are open.
pub fn calls_leave_rows_at_rest<S: Alter>()
    ensures { LeavesRowsAtRest S.Store }
{}

/// After a crash in a save of rows together an open finds none of them or all.
pub fn a_group_outlives_crashes<D: Disk, E: Disk>()
    ensures { GroupOutlivesCrash D D.Disk E E.Disk }
{}

/// After a crash behind the Ok of such a save an open finds all of them.
pub fn a_group_is_found<D: Disk, E: Disk>()
    ensures { GroupIsFound D D.Disk E E.Disk }
{}

/// A crash of a station before, in or after a save of rows together, and its next start, are the restart of a circuit: before the
/// steps whose rows they are, or after them.
pub fn a_group_crash_is_a_restart<D, G, F>()
    ensures { GroupCrashIsARestart D G F }
{}
