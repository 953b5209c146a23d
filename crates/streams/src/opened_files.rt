//! Files that may not open.

use std::fs::File;
use std::io;
use std::io::{ErrorKind, Read};

/// A file, or a reader whose first read fails in place of one that can't be opened.
#[derive(Drop)]
pub enum InputFile {
    File(File),
    Failed,
}

impl InputFile {
    /// The file at the path.
    pub fn at(rt: &HostRuntime, path: &str) -> InputFile {
        match File::open(rt, path) {
            Ok(file) => InputFile::File(file),
            Err(_) => InputFile::Failed,
        }
    }
}

impl Read for InputFile {
    fn read(&mut self, buf: &mut [u8]) -> io::Result<usize> {
        match self {
            InputFile::File(file) => file.read(buf),
            InputFile::Failed => Err(io::Error::from(ErrorKind::NotFound)),
        }
    }
}
