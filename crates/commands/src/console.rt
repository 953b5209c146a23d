//! What each command works with.

use rows_files::RowFiles;
use std::io::{Read, Write};

/// The runtime of the host, the files that saved rows lie in, and the standard streams.
#[derive(Drop)]
pub struct Console<'a, F: RowFiles, R: Read + Drop, W: Write + Drop, E: Write + Drop> {
    pub rt: &'a HostRuntime,
    pub row_files: &'a F,
    /// What a command is given on a pipe.
    pub input: R,
    /// What it prints.
    pub out: W,
    /// What it tells.
    pub err: E,
}
