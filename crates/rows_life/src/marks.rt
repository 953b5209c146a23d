//! The mark in the header of a row file: written by itself, while no database is open over the file, and read before one is.

ghost use Rattle.std.specs.Prelude.{◌≤◌, IsTrue};
ghost use Rattle.rows_files.specs.Found.{HoldsNoFrame};
ghost use Rattle.rows_life.specs.Acts.{IsWritten};
ghost use Rattle.rows_life.specs.Keeping.{WritesTheMark};
ghost use Rattle.rows_life.specs.Lives.{IsAtRest, IsInUse};

use rows_files::{AT_REST, FoundLog, IN_USE, MARK_AT};
use sqlite_disk::Disk;
use std::io;

/// Marks a row file as at rest. The log beside it is handed in, since it may hold nothing that the file lacks.
///
/// One byte says so, and waits for the disk: whatever a crash leaves of it, the number behind it is the log's still.
pub(crate) fn mark_at_rest<D: Disk>(db: &mut D, held: FoundLog) -> io::Result<()>
    requires usable { IsTrue (D.Disk.is_usable db.old) }
    requires copied { HoldsNoFrame held }
    ensures rests { IsWritten D.Disk IsAtRest db.old db.new result }
    ensures mark { WritesTheMark D.Disk db.old db.new }
{
    let _ = held;
    db.write_at(MARK_AT, &[AT_REST])?;
    db.sync()
}

/// Marks a row file at rest as in use, by the number of a new life, which its log has by now.
///
/// The disk has the number before it has the byte that says that the file is in use.
pub(crate) fn mark_in_use<D: Disk>(db: &mut D, number: u32) -> io::Result<()>
    requires usable { IsTrue (D.Disk.is_usable db.old) }
    requires number { number ≤ 0xff_ffff }
    ensures uses { IsWritten D.Disk (IsInUse number) db.old db.new result }
    ensures mark { WritesTheMark D.Disk db.old db.new }
{
    let digits = [
        (number / 0x1_0000) as u8,
        (number / 0x100 % 0x100) as u8,
        (number % 0x100) as u8,
    ];
    db.write_at(MARK_AT + 1, &digits)?;
    db.sync()?;
    db.write_at(MARK_AT, &[IN_USE])?;
    db.sync()
}
