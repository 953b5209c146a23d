//! The folder of the host that the tapes of a reel are put into.

use reel_commands::{NotMade, TakenName, TapeFolder};
use std::alloc::{AllocError, Global};
use std::fs::File;
use std::io::{ErrorKind, Write};
use std::{fs, io};

/// A folder of the host, by its path.
#[derive(Drop)]
pub(crate) struct HostTapes<'a> {
    rt: &'a HostRuntime,
    path: &'a str,
}

/// Whether something stands at a path, whatever its kind: no link is followed.
fn look_at(rt: &HostRuntime, path: &str) -> TakenName {
    match fs::symlink_metadata(rt, path) {
        Ok(_) => TakenName::Taken,
        Err(error) if error.kind() == ErrorKind::NotFound => TakenName::Free,
        Err(_) => TakenName::NoFolder,
    }
}

/// Makes a file at a path at which nothing stands, with these bytes. One that can't be written to its end is taken away.
fn make_at(rt: &HostRuntime, path: &str, bytes: &[u8]) -> io::Result<()> {
    let mut file = File::create_new(rt, path)?;
    let written = file.write_all(bytes);
    if written.is_err() {
        let _ = fs::remove_file(rt, path);
    }
    written
}

impl<'a> HostTapes<'a> {
    /// The folder at a path.
    pub fn at(rt: &'a HostRuntime, path: &'a str) -> HostTapes<'a> {
        HostTapes { rt, path }
    }

    /// The path of a file in it.
    fn within(&self, alloc: Global, name: &str) -> Result<String, AllocError> {
        let folder = self.path;
        format!(in alloc; "{folder}/{name}")
    }

    /// Whether it is a folder; links are followed.
    fn is_folder(&self) -> bool {
        match fs::metadata(self.rt, self.path) {
            Ok(data) => data.is_dir(),
            Err(_) => false,
        }
    }
}

impl<'a> TapeFolder for HostTapes<'a> {
    fn look(&self, alloc: Global, name: &str) -> TakenName {
        if !self.is_folder() {
            return TakenName::NoFolder;
        }
        match self.within(alloc, name) {
            Ok(path) => look_at(self.rt, &path),
            Err(_) => TakenName::NoFolder,
        }
    }

    fn make(&mut self, alloc: Global, name: &str, bytes: &[u8]) -> Result<(), NotMade> {
        let Ok(path) = self.within(alloc, name) else {
            return Err(NotMade);
        };
        match make_at(self.rt, &path, bytes) {
            Ok(()) => Ok(()),
            Err(_) => Err(NotMade),
        }
    }
}
