//! A row file that is made whole: under another name in its folder, which it leaves once the disk has all of it.

ghost use Rattle.std.specs.Prelude.{IfErr, OnOk};
ghost use Rattle.tape_frames.specs.Entries.{version_of};
ghost use Rattle.rows_saved.specs.Identity.{IsIdentity};
ghost use Rattle.rows_host_files.specs.Taking.{HasMade, IsNotMade};

use crate::causes::refused_by;
use crate::database::close_database;
use crate::look::test_making;
use acceptor_store::{NewTables, SqliteRows};
use rows_files::{NewRows, RefusedRows, RowsCause};
use sqlite::{FileFrom, Wary};
use sqlite_disk::Disk;
use station_files::{log_path, making_path};
use std::fs::{File, TryLockError};
use std::io::ErrorKind;
use std::path::{AsPath, Path};
use std::time::Duration;
use std::{fs, io, thread};

/// How often a making looks whether another one in its folder has ended, and how many milliseconds it pauses between two looks. One
/// takes some hundredths of a second, most of it for the disk.
const LOOKS: u32 = 100;

const PAUSE: u64 = 50;

/// A file that is made under another name, with its log, and its folder, whose lock is held.
#[derive(Drop)]
pub(crate) struct Making {
    folder: File,
    path: String,
    log: String,
}

/// Opens the folder of a path.
fn open_folder(rt: &HostRuntime, path: &str) -> io::Result<File> {
    match Path::new(path).parent() {
        Some(folder) if !folder.path_text().is_empty() => File::open(rt, folder),
        _ => File::open(rt, "."),
    }
}

/// The folder of a path, with the lock that every making in it takes. It is let go as the folder is closed, or the process ends.
fn lock_folder(rt: &HostRuntime, path: &str) -> Result<File, RefusedRows> {
    let folder = open_folder(rt, path)?;
    for _ in 0..LOOKS {
        match folder.try_lock() {
            Ok(()) => return Ok(folder),
            Err(TryLockError::WouldBlock) => thread::sleep(rt, Duration::from_millis(PAUSE)),
            Err(TryLockError::Error(error)) => return Err(RefusedRows::from(error)),
        }
    }
    Err(RefusedRows::for_cause(RowsCause::BeingMade))
}

/// Removes a file, if it is there.
fn remove(rt: &HostRuntime, path: &str) -> io::Result<()> {
    match fs::remove_file(rt, path) {
        Err(error) if error.kind() == ErrorKind::NotFound => Ok(()),
        removed => removed,
    }
}

/// Makes a row file where none is, and closes it, so that the file alone has all.
fn make_closed(rt: &HostRuntime, new: NewRows<'_>) -> Result<(), RefusedRows>
    requires { IsIdentity new.identity }
    ensures made { OnOk result (HasMade ⟦<FileFrom<Wary> as Disk>⟧ new.entry.identity (version_of new.entry.version)) }
    ensures refused { IfErr result (IsNotMade ⟦<FileFrom<Wary> as Disk>⟧ new.entry.identity (version_of new.entry.version)) }
{
    let tables = NewTables {
        identity: new.identity,
        version: new.version,
    };
    match SqliteRows::create_at(rt, new.path, Wary, tables) {
        Ok(rows) => close_database(rows),
        Err(fault) => Err(refused_by(fault)),
    }
}

impl Making {
    /// Begins to make the row file of a path, where nothing stands and no log is left.
    pub(crate) fn at(rt: &HostRuntime, path: &str) -> Result<Making, RefusedRows> {
        // The database takes this name for one in memory.
        if path == ":memory:" {
            return Err(RefusedRows::for_cause(RowsCause::Unopened));
        }
        test_making(rt, path)?;
        let part = making_path(rt.alloc(), path)?;
        let log = log_path(rt.alloc(), &part)?;
        let folder = lock_folder(rt, path)?;
        Ok(Making {
            folder,
            path: part,
            log,
        })
    }

    /// Removes what is there under the other name.
    pub(crate) fn clear(&self, rt: &HostRuntime) -> io::Result<()> {
        remove(rt, &self.log)?;
        remove(rt, &self.path)
    }

    /// Gives the file that was made whole its name, where nothing stands there by now, and waits until the disk has the name.
    fn name(&self, rt: &HostRuntime, path: &str) -> Result<(), RefusedRows> {
        remove(rt, &self.log)?;
        test_making(rt, path)?;
        fs::rename(rt, self.path.as_str(), path)?;
        match self.folder.sync_all() {
            Ok(()) => Ok(()),
            Err(error) if error.kind() == ErrorKind::StorageFull => {
                Err(RefusedRows::for_cause(RowsCause::DiskFull))
            }
            Err(_) => Err(RefusedRows::for_cause(RowsCause::DiskFailed)),
        }
    }

    /// Makes the row file, under the other name first. What a making that was cut off left under that is removed before.
    pub(crate) fn make(&self, rt: &HostRuntime, new: NewRows<'_>) -> Result<(), RefusedRows>
        requires { IsIdentity new.identity }
        ensures { OnOk result (HasMade ⟦<FileFrom<Wary> as Disk>⟧ new.entry.identity (version_of new.entry.version)) }
    {
        self.clear(rt)?;
        let part = NewRows {
            path: &self.path,
            identity: new.identity,
            version: new.version,
        };
        make_closed(rt, part)?;
        self.name(rt, new.path)
    }
}
