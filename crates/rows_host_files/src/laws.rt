//! A law over rows that a start takes up. The function does nothing: its contract is the law.

ghost use Rattle.rows_host_files.specs.Starting.{OpensWhatItBegins};

use sqlite_disk::Disk;

/// Rows that a start takes up are opened from what it made of the files, as the laws of a hand-over ask. That stands for what the files held, or
/// for what was left of them as they got their first mark.
pub fn a_start_opens_what_it_begins<D: Disk>()
    ensures { OpensWhatItBegins D D.Disk }
{}
