//! The files that a command is given, of which one may be its standard input.

use std::io;
use std::io::Read;
use streams::InputFile;

/// A file that a command reads, or its standard input.
#[derive(Drop)]
pub(crate) enum Story<'a, R: Read> {
    File(InputFile),
    Input(&'a mut R),
}

impl<'a, R: Read> Story<'a, R> {
    /// The file at the path.
    pub fn of_file(rt: &HostRuntime, path: &str) -> Story<'a, R> {
        Story::File(InputFile::at(rt, path))
    }

    /// That at the path, where `-` is the input.
    pub fn at(rt: &HostRuntime, path: &str, input: &'a mut R) -> Story<'a, R> {
        if path == "-" {
            Story::Input(input)
        } else {
            Story::File(InputFile::at(rt, path))
        }
    }
}

impl<'a, R: Read> Read for Story<'a, R> {
    fn read(&mut self, buf: &mut [u8]) -> io::Result<usize> {
        match self {
            Story::File(file) => file.read(buf),
            Story::Input(input) => input.read(buf),
        }
    }
}
