//! What tells that two files of a station are one.

ghost use Rattle.std.specs.Prelude.{◌≡◌, ◌↔◌, ◌⊎◌, IsTrue, IfNone, IfSome};
ghost use Rattle.std.specs.List.{AllByRecursion};
ghost use Rattle.station_files.specs.Files.{IsWritten, rank};
ghost use Rattle.station_files.specs.declared.traces.Trace.{Trace as TraceValue};
ghost use Rattle.station_files.specs.Traces.{AreApart, Clashes, ClashesAmong, IsOneFile, IsSameMark};

use crate::file::StationFile;
use folders::FileId;

/// What a file is known by.
#[derive(Clone, Copy)]
pub enum Mark<'a> {
    /// A name in a folder. Whether something stands there is not asked.
    At { folder: FileId, name: &'a str },
    /// The file itself.
    Is(FileId),
}

/// A mark of a file of the station. A file may have several: its name, where that leads, and what stands there.
#[derive(Clone, Copy)]
pub struct Trace<'a> {
    pub file: StationFile,
    pub mark: Mark<'a>,
}

/// Two files of the station that are one.
#[derive(Clone, Copy)]
pub struct Clash {
    pub first: StationFile,
    pub second: StationFile,
}

/// Whether it is one file of the host.
pub(crate) fn is_one(one: FileId, other: FileId) -> bool
    ensures { IsTrue result ↔ IsOneFile one other }
{
    one.device == other.device && one.inode == other.inode
}

/// Whether it is one name in one folder, or one file.
fn is_same(one: Mark<'_>, other: Mark<'_>) -> bool
    ensures { IsTrue result ↔ IsSameMark one.entry other.entry }
{
    match (one, other) {
        (
            Mark::At { folder, name },
            Mark::At {
                folder: other_folder,
                name: other_name,
            },
        ) => is_one(folder, other_folder) && name == other_name,
        (Mark::Is(id), Mark::Is(other_id)) => is_one(id, other_id),
        (Mark::At { .. }, Mark::Is(_)) | (Mark::Is(_), Mark::At { .. }) => false,
    }
}

/// Whether these are two of the files.
fn are_two(one: StationFile, other: StationFile) -> bool
    ensures { IsTrue result ↔ ¬ (rank one ≡ rank other) }
{
    one.rank() != other.rank()
}

/// Whether one of them is written.
fn is_any_written(one: StationFile, other: StationFile) -> bool
    ensures { IsTrue result ↔ (IsWritten one ⊎ IsWritten other) }
{
    one.is_written() || other.is_written()
}

/// Whether two files of the station, one of which is written, have this mark in common.
fn clashes(one: &Trace<'_>, other: &Trace<'_>) -> bool
    ensures { IsTrue result ↔ Clashes one.now other.now }
{
    are_two(one.file, other.file)
        && is_any_written(one.file, other.file)
        && is_same(one.mark, other.mark)
}

/// The first of these with which a trace clashes.
fn first_with(one: &Trace<'_>, others: &[Trace<'_>]) -> Option<StationFile>
    ensures none { IfNone result (AllByRecursion (λ u. ¬ Clashes one.now u) others.now) }
    ensures some { IfSome result (ClashesAmong one.now others.now) }
{
    for other in others {
        if clashes(one, other) {
            return Some(other.file);
        }
    }
    None
}

/// The first two files of the station that are one, though one of them is written.
pub fn first_clash(traces: &[Trace<'_>]) -> Option<Clash>
    ensures none { IfNone result (AreApart traces.now) }
    ensures some { IfSome result (λ c. (one : TraceValue) × (one.file ≡ c.second) × ClashesAmong one traces.now c.first) }
{
    for place in 0..traces.len() {
        let one = &traces[place];
        match first_with(one, &traces[..place]) {
            Some(first) => {
                let second = one.file;
                return Some(Clash { first, second });
            }
            None => {}
        }
    }
    None
}
