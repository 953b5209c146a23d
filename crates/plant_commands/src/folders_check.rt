//! The files and folders that a configuration names, and where they stand.

ghost use Rattle.command_ends.specs.Ends.{end_of, IsOfInput};
ghost use Rattle.command_ends.specs.Giving.{Gives};

use crate::files::put_fault;
use crate::status_check::is_status_taken;
use command_ends::Fault;
use configuration::{Config, WorkFolders};
use host_folders::{rows_at, why_misplaced, why_no_folder};
use station_files::{Misplaced, MisplacedWords, StationPaths};
use std::alloc::AllocError;
use std::io;
use std::io::Write;
use streams::CannotWrite;

/// That the files of a station stand where they may. [`test_places`] alone makes one: who did not look has none, and starts no station and makes no row
/// file.
#[derive(Clone, Copy)]
pub struct Placed {
    _looked: (),
}

/// What a person reads of a file that stands where it may not.
fn misplaced_fault<'a>(reason: Misplaced) -> Fault<'a>
    ensures misplaced { IsOfInput (end_of result) }
{
    let MisplacedWords { what, how, which } = reason.words();
    Fault::Misplaced { what, how, which }
}

/// The path of a text, where there is one.
fn lent(text: &Option<String>) -> Option<&str> {
    match text {
        Some(text) => Some(text.as_str()),
        None => None,
    }
}

/// The path of the status file, where there is to be one.
fn status_of(folders: &WorkFolders) -> Option<&str> {
    lent(&folders.status)
}

/// What the configuration at a path names, where its row file is found at another.
fn paths_of<'a>(path: &'a str, config: &'a Config, rows_at: &'a str) -> StationPaths<'a> {
    let folders = &config.folders;
    StationPaths {
        configuration: path,
        table: &config.table,
        widths: &config.widths,
        rows: &config.rows,
        rows_at,
        key: lent(&config.key),
        status: match folders {
            Some(folders) => status_of(folders),
            None => None,
        },
        offers: match folders {
            Some(folders) => Some(folders.offers.as_str()),
            None => None,
        },
        releases: match folders {
            Some(folders) => Some(folders.releases.as_str()),
            None => None,
        },
    }
}

/// Which of the files of the configuration at a path stands where it may not, if one does; or that what stands in place of its status file is none.
fn misplaced_at(
    rt: &HostRuntime,
    path: &str,
    config: &Config,
) -> Result<Option<Misplaced>, AllocError> {
    let rows = rows_at(rt, &config.rows)?;
    if let Some(reason) = why_misplaced(rt, &paths_of(path, config, &rows))? {
        return Ok(Some(reason));
    }
    Ok(is_status_taken(rt, config)?.then_some(Misplaced::NoStatus))
}

/// Refuses a station whose files, as the configuration at a path names them, are not all apart, or lie within its folders, or in place of whose status
/// file something else stands. Nothing is made, and nothing is opened but a plain file in place of the status.
pub fn test_places<'a>(rt: &HostRuntime, path: &str, config: &Config) -> Result<Placed, Fault<'a>>
    ensures placed { Gives result (λ _. Unit {0}) }
{
    match misplaced_at(rt, path, config)? {
        None => Ok(Placed { _looked: () }),
        Some(reason) => Err(misplaced_fault(reason)),
    }
}

/// Writes why a folder does not serve, if it does not; whether it does.
fn put_folder<W: Write>(rt: &HostRuntime, name: &str, path: &str, out: &mut W) -> io::Result<bool> {
    match why_no_folder(rt, path) {
        None => Ok(true),
        Some(fault) => {
            writeln!(out, "fault: folders: cannot read {name}: {fault}")?;
            Ok(false)
        }
    }
}

/// Writes what is wrong with the two folders; whether nothing is.
fn put_both<W: Write>(rt: &HostRuntime, folders: &WorkFolders, out: &mut W) -> io::Result<bool> {
    let offers = put_folder(rt, "offers", &folders.offers, out)?;
    let releases = put_folder(rt, "releases", &folders.releases, out)?;
    Ok(offers && releases)
}

/// Writes which file stands where it may not, if one does; whether none does.
fn put_misplaced<'a, W: Write>(
    rt: &HostRuntime,
    path: &str,
    config: &Config,
    out: &mut W,
) -> Result<bool, Fault<'a>> {
    match misplaced_at(rt, path, config)? {
        None => Ok(true),
        Some(reason) => {
            put_fault(misplaced_fault(reason), out)?;
            Ok(false)
        }
    }
}

/// Writes what is wrong with the folders that a configuration names, or that it is odd to name none; whether nothing is wrong.
fn put_given<W: Write>(
    rt: &HostRuntime,
    config: &Config,
    out: &mut W,
) -> Result<bool, CannotWrite> {
    let Some(folders) = &config.folders else {
        writeln!(
            out,
            "odd: no folders are named: it only votes, and nothing but a kill ends it"
        )?;
        return Ok(true);
    };
    Ok(put_both(rt, folders, out)?)
}

/// Writes what is wrong with the folders that the configuration at a path names, and with where its files stand; whether nothing is.
pub(crate) fn put_folders<'a, W: Write>(
    rt: &HostRuntime,
    path: &str,
    config: &Config,
    out: &mut W,
) -> Result<bool, Fault<'a>> {
    let given = put_given(rt, config, out)?;
    let placed = put_misplaced(rt, path, config, out)?;
    Ok(given && placed)
}
