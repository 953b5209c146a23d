//! Whether the pages of a database keep sums. Another program may have set them to; this one never does, and begins no life of such a
//! database.

ghost use Rattle.std.specs.Prelude.{◌<◌, OnOk};
ghost use Rattle.sqlite_wal.specs.Files.{seen_image};
ghost use Rattle.sqlite_wal.specs.Reads.{AreClean};
ghost use Rattle.rows_life.specs.Acts.{WereClean};
ghost use Rattle.rows_life.specs.Keeping.{AreUnwritten, KeepNoSums};

use crate::copying::refused_by;
use crate::looking::failed;
use rows_files::{RefusedRows, RowsCause};
use sqlite_disk::{Disk, Files};
use sqlite_wal::{Error, probe_first_page, probe_page_size};
use std::alloc::Global;

/// The least number in bytes 20 to 23 of a first page where each page keeps some bytes for a sum: the first of the four is their count.
const RESERVES: u32 = 0x100_0000;

/// Refuses a database whose first page says that its pages keep sums. `settings` are bytes 20 to 23 of that page. The file's own header
/// says that they keep none, or the file would have been refused before: so the file and its log do not belong together.
fn plain(settings: u32) -> Result<(), RefusedRows>
    ensures { OnOk result (settings < 0x100_0000) }
{
    if settings < RESERVES {
        Ok(())
    } else {
        Err(RefusedRows::for_cause(RowsCause::Damaged))
    }
}

/// Refuses files whose pages keep sums, by the first page that recovery finds. That may be in the log, and say something else there than in
/// the file, which was looked at before. Nothing is written.
pub(crate) fn without_sums<D: Disk>(alloc: Global, files: &mut Files<D>) -> Result<(), RefusedRows>
    ensures unwritten { AreUnwritten D.Disk files.old files.new }
    ensures clean { WereClean D.Disk files.old files.new }
    ensures plain { OnOk result (AreClean D.Disk files.new.log files.new.db → KeepNoSums (seen_image D.Disk files.old.log files.old.db)) }
{
    if !files.may_be_used() {
        return Err(failed());
    }
    let size = match probe_page_size(files) {
        Ok(Some(size)) => size,
        Ok(None) => return Err(refused_by(Error::Corrupt)),
        Err(error) => return Err(refused_by(Error::Io(error))),
    };
    match probe_first_page(alloc, files, size) {
        Ok(head) => plain(head.1),
        Err(error) => Err(refused_by(error)),
    }
}
