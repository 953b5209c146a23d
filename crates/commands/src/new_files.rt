//! Files and folders of the host that are made where nothing stands.

use init_command::{Made, NewFolder, NotMade, Thing};
use std::fs::{DirBuilder, File, OpenOptions};
use std::io::{ErrorKind, Read, Write};
use std::os::unix::fs::{DirBuilderExt, OpenOptionsExt};
use std::{fs, io};

/// The folders of this machine.
#[derive(Clone, Copy)]
pub(crate) struct HostFolder<'a> {
    pub(crate) rt: &'a HostRuntime,
}

/// Whether a folder stands at a path; links are followed.
fn is_folder(rt: &HostRuntime, path: &str) -> bool {
    match fs::metadata(rt, path) {
        Ok(found) => found.is_dir(),
        Err(_) => false,
    }
}

/// Whether the file at a path has just these bytes. Nothing but a plain file is opened: a pipe could wait.
fn has(rt: &HostRuntime, path: &str, bytes: &[u8]) -> io::Result<bool> {
    let found = fs::metadata(rt, path)?;
    if !found.is_file() || found.len() != bytes.len() as u64 {
        return Ok(false);
    }
    let file = File::open(rt, path)?;
    let mut held = Vec::new(rt.alloc());
    let mut front = (&file).take(bytes.len() as u64);
    front.read_to_end(&mut held)?;
    Ok(held.as_slice() == bytes)
}

/// Writes a file that was just made, and waits until the disk has it.
fn fill(file: &mut File, bytes: &[u8]) -> io::Result<()> {
    file.write_all(bytes)?;
    file.sync_all()
}

/// Makes a file at a path at which nothing stands. One that can't be written to its end is taken away.
fn make_file(rt: &HostRuntime, thing: &Thing<'_>, bytes: &[u8]) -> io::Result<()> {
    let path = thing.path.as_str();
    let mut file = OpenOptions::new()
        .write(true)
        .create_new(true)
        .mode(thing.mode)
        .open(rt, path)?;
    let written = fill(&mut file, bytes);
    if written.is_err() {
        let _ = fs::remove_file(rt, path);
    }
    written
}

/// Makes a file, where nothing stands under its path.
fn file_at(rt: &HostRuntime, thing: &Thing<'_>, bytes: &[u8]) -> Result<Made, NotMade> {
    match make_file(rt, thing, bytes) {
        Ok(()) => Ok(Made::New),
        Err(error) if error.kind() == ErrorKind::AlreadyExists => {
            match has(rt, thing.path.as_str(), bytes) {
                Ok(true) => Ok(Made::Same),
                _ => Ok(Made::Other),
            }
        }
        Err(_) => Err(NotMade),
    }
}

/// Makes a folder, where none stands under its path.
fn folder_at(rt: &HostRuntime, thing: &Thing<'_>) -> Result<Made, NotMade> {
    let path = thing.path.as_str();
    let mut builder = DirBuilder::new();
    builder.mode(thing.mode);
    match builder.create(rt, path) {
        Ok(()) => Ok(Made::New),
        Err(_) if is_folder(rt, path) => Ok(Made::Same),
        Err(_) => Err(NotMade),
    }
}

impl<'a> NewFolder for HostFolder<'a> {
    fn make(&mut self, thing: &Thing<'_>) -> Result<Made, NotMade> {
        match thing.bytes {
            Some(bytes) => file_at(self.rt, thing, bytes),
            None => folder_at(self.rt, thing),
        }
    }
}
