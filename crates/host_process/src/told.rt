//! Standard error, which never makes a process wait for long.

ghost use Rattle.std.specs.Prelude.{◌≤◌, length};

use crate::patience::Patience;
use libc::net::{POLLOUT, poll};
use libc::types::pollfd;
use std::alloc::Global;
use std::io;
use std::io::Write;

/// The descriptor of standard error.
const STANDARD_ERROR: i32 = 2;

/// How many bytes are written at once: a pipe that takes anything takes so many.
const MOST: usize = 4096;

/// Standard error. Where it takes nothing for a second, what is written is lost, and it is told how many lines were as soon as it takes
/// something again.
#[derive(Drop)]
pub struct StandardError {
    alloc: Global,
    patience: Patience,
}

/// Whether standard error takes something within so many milliseconds, or fails.
fn is_ready(limit: i32) -> bool {
    let mut streams = [pollfd {
        fd: STANDARD_ERROR,
        events: POLLOUT,
        revents: 0,
    }];
    poll(&mut streams, limit) != 0
}

/// How many lines these bytes end.
fn count_lines(bytes: &[u8]) -> u64 {
    bytes.iter().filter(|byte| **byte == b'\n').count() as u64
}

/// Writes the first of these bytes; how many were. Where that fails they are taken for written: there is nobody to tell.
fn put_first(bytes: &[u8]) -> usize
    ensures { result ≤ length bytes.now }
{
    let (first, _) = bytes.split_at(bytes.len().min(MOST));
    match usize::try_from(libc::write(STANDARD_ERROR, first)) {
        Ok(count) => count.min(first.len()),
        Err(_) => first.len(),
    }
}

impl StandardError {
    pub fn new(alloc: Global) -> StandardError {
        StandardError {
            alloc,
            patience: Patience::new(),
        }
    }

    /// Tells how many lines were lost, if any were.
    fn tell_lost(&mut self) {
        let lost = self.patience.recover();
        if lost > 0 {
            if let Ok(line) = format!(in self.alloc; "log: {lost} lines were lost\n") {
                let _ = put_first(line.as_bytes());
            }
        }
    }
}

impl Write for StandardError {
    fn write(&mut self, buf: &[u8]) -> io::Result<usize> {
        if !is_ready(self.patience.limit()) {
            self.patience.lose(count_lines(buf));
            return Ok(buf.len());
        }
        self.tell_lost();
        Ok(put_first(buf))
    }

    fn flush(&mut self) -> io::Result<()> {
        Ok(())
    }
}
