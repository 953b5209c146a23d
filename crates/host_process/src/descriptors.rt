//! The descriptors of the standard streams.

use std::fs::{File, OpenOptions};
use std::io;
use std::os::fd::{AsRawFd, IntoRawFd};

/// The null device.
const NULL: &str = "/dev/null";

/// How many descriptors are standard streams, the first.
const STREAMS: i32 = 3;

/// Opens the null device on the first descriptor that is free: to be written where that is standard input, else to be read, so that a
/// command that uses the stream fails as it does where it is closed.
fn open_null(rt: &HostRuntime) -> io::Result<File> {
    let file = File::open(rt, NULL)?;
    if file.as_raw_fd() > 0 {
        return Ok(file);
    }
    drop(file);
    OpenOptions::new().write(true).open(rt, NULL)
}

/// Sees to it that the descriptors 0 to 2 are open, so that no file that is opened later gets one of them, and is written to as if it
/// were a standard stream.
pub fn fill_descriptors(rt: &HostRuntime) {
    for _ in 0..STREAMS {
        let Ok(file) = open_null(rt) else {
            return;
        };
        if file.as_raw_fd() >= STREAMS {
            return;
        }
        // It stays open as long as the process runs.
        let _ = file.into_raw_fd();
    }
}
