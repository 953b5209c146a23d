//! Where the files and folders of a station stand.

ghost use Rattle.std.specs.Prelude.{◌≡◌, ◌++◌, IfOk, option_map, string_bytes, codes};
ghost use Rattle.station_files.specs.Paths.{path_of};

use crate::file::StationFile;
use folders::{PASSAGE, Place, RELEASED};
use std::alloc::{AllocError, Global};

/// The paths that the configuration of a station names, its own among them.
#[derive(Clone, Copy)]
pub struct StationPaths<'a> {
    pub configuration: &'a str,
    pub table: &'a str,
    pub widths: &'a str,
    pub rows: &'a str,
    /// Where the row file is found, links followed: there the database has its log and its journal.
    pub rows_at: &'a str,
    pub key: Option<&'a str>,
    pub status: Option<&'a str>,
    /// The folders, where there are such.
    pub offers: Option<&'a str>,
    pub releases: Option<&'a str>,
}

/// A path with this behind it; where there is no path there is none.
fn behind(alloc: Global, path: Option<&str>, end: &str) -> Result<Option<String>, AllocError>
    ensures { IfOk result (λ p. option_map string_bytes p ≡ option_map (λ s. s.now ++ end.now) path.entry) }
{
    match path {
        Some(path) => Ok(Some(format!(in alloc; "{path}{end}")?)),
        None => Ok(None),
    }
}

/// The path of what has this name in a folder; where there is no folder there is none.
fn within(alloc: Global, folder: Option<&str>, name: &str) -> Result<Option<String>, AllocError>
    ensures { IfOk result (λ p. option_map string_bytes p ≡ option_map (λ s. s.now ++ (codes "/" ++ name.now)) folder.entry) }
{
    match folder {
        Some(folder) => Ok(Some(format!(in alloc; "{folder}/{name}")?)),
        None => Ok(None),
    }
}

/// The path of the file that takes the place of a status file.
pub fn next_path(alloc: Global, status: &str) -> Result<String, AllocError>
    ensures { IfOk result (λ p. string_bytes p ≡ status.now ++ codes ".next") }
{
    format!(in alloc; "{status}.next")
}

/// The path of the log of a database at one.
pub fn log_path(alloc: Global, file: &str) -> Result<String, AllocError>
    ensures { IfOk result (λ p. string_bytes p ≡ file.now ++ codes "-wal") }
{
    format!(in alloc; "{file}-wal")
}

/// The path at which a row file is made before it has its name.
pub fn making_path(alloc: Global, rows: &str) -> Result<String, AllocError>
    ensures { IfOk result (λ p. string_bytes p ≡ rows.now ++ codes ".making") }
{
    format!(in alloc; "{rows}.making")
}

/// The path under which it is kept what a row file held whose path led to another.
pub fn kept_path(alloc: Global, rows: &str) -> Result<String, AllocError>
    ensures { IfOk result (λ p. string_bytes p ≡ rows.now ++ codes ".kept") }
{
    format!(in alloc; "{rows}.kept")
}

/// The path under which that is written before it is whole.
pub fn keeping_path(alloc: Global, rows: &str) -> Result<String, AllocError>
    ensures { IfOk result (λ p. string_bytes p ≡ rows.now ++ codes ".keeping") }
{
    format!(in alloc; "{rows}.keeping")
}

/// Where a file of a station stands; `None` where the configuration names none. Each path that the program writes or moves is one of these.
pub fn path_of(
    alloc: Global,
    paths: &StationPaths<'_>,
    file: StationFile,
) -> Result<Option<String>, AllocError>
    ensures { IfOk result (λ p. option_map string_bytes p ≡ path_of paths.now file) }
{
    match file {
        StationFile::Configuration => behind(alloc, Some(paths.configuration), ""),
        StationFile::Table => behind(alloc, Some(paths.table), ""),
        StationFile::Widths => behind(alloc, Some(paths.widths), ""),
        StationFile::Rows => behind(alloc, Some(paths.rows), ""),
        StationFile::Log => behind(alloc, Some(paths.rows_at), "-wal"),
        StationFile::Journal => behind(alloc, Some(paths.rows_at), "-journal"),
        StationFile::Making => behind(alloc, Some(paths.rows), ".making"),
        StationFile::MakingLog => behind(alloc, Some(paths.rows), ".making-wal"),
        StationFile::Kept => behind(alloc, Some(paths.rows), ".kept"),
        StationFile::KeptLog => behind(alloc, Some(paths.rows), ".kept-wal"),
        StationFile::Keeping => behind(alloc, Some(paths.rows), ".keeping"),
        StationFile::Key => behind(alloc, paths.key, ""),
        StationFile::Status => behind(alloc, paths.status, ""),
        StationFile::NextStatus => behind(alloc, paths.status, ".next"),
        StationFile::Offers => behind(alloc, paths.offers, ""),
        StationFile::Releases => behind(alloc, paths.releases, ""),
        StationFile::Released => within(alloc, paths.releases, RELEASED),
        StationFile::Passage => within(alloc, paths.offers, PASSAGE),
        StationFile::Sent => within(alloc, paths.offers, Place::Sent.folder()),
        StationFile::Lost => within(alloc, paths.offers, Place::Lost.folder()),
        StationFile::Refused => within(alloc, paths.offers, Place::Refused.folder()),
        StationFile::Done => within(alloc, paths.offers, Place::Done.folder()),
    }
}
