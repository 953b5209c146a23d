//! What a row file held that no path leads to any more: it is kept beside its path, under a name that a start looks for.

use rows_files::RowsCause;
use station_files::{keeping_path, kept_path, log_path};
use std::alloc::AllocError;
use std::fs::{File, OpenOptions};
use std::io::ErrorKind;
use std::os::unix::fs::OpenOptionsExt;
use std::path::Path;
use std::{fs, io};

/// Nobody else may read what is kept.
const MODE: u32 = 0o600;

/// Where a row file and its log are kept, and where the file is written before it is whole.
#[derive(Drop)]
struct KeptPaths {
    file: String,
    log: String,
    part: String,
}

/// Those of the row file at a path.
fn kept_paths(rt: &HostRuntime, rows: &str) -> Result<KeptPaths, AllocError> {
    let file = kept_path(rt.alloc(), rows)?;
    let log = log_path(rt.alloc(), &file)?;
    let part = keeping_path(rt.alloc(), rows)?;
    Ok(KeptPaths { file, log, part })
}

/// Makes a file where nothing stands, fills it with all that another holds, and waits until the disk has it.
fn copy_to(rt: &HostRuntime, path: &str, mut from: File) -> io::Result<()> {
    let mut made = OpenOptions::new()
        .write(true)
        .create_new(true)
        .mode(MODE)
        .open(rt, path)?;
    io::copy(&mut from, &mut made)?;
    made.sync_all()
}

/// The folder of a path.
fn folder_of(path: &str) -> &str {
    match Path::new(path).parent() {
        Some(folder) if !folder.as_str().is_empty() => folder.as_str(),
        _ => ".",
    }
}

/// Keeps a row file and its log. The log comes first: from then on no start takes what stands at the path. The file gets its name once both are
/// whole.
fn copied(rt: &HostRuntime, rows: &str, file: File, log: File) -> io::Result<()> {
    let paths = kept_paths(rt, rows)?;
    copy_to(rt, &paths.log, log)?;
    // One that was cut off before.
    let _ = fs::remove_file(rt, paths.part.as_str());
    copy_to(rt, &paths.part, file)?;
    fs::rename(rt, paths.part.as_str(), paths.file.as_str())?;
    File::open(rt, folder_of(rows))?.sync_all()
}

/// Keeps what a row file and its log hold beside the path at which they stood, and tells what came of it. Where the folder is gone nothing is
/// written.
pub(crate) fn keep_pair(rt: &HostRuntime, rows: &str, file: File, log: File) -> RowsCause {
    match copied(rt, rows, file, log) {
        Ok(()) => RowsCause::Replaced,
        Err(error)
            if error.kind() == ErrorKind::NotFound || error.kind() == ErrorKind::NotADirectory => {
            RowsCause::Lost
        }
        Err(_) => RowsCause::Unkept,
    }
}
