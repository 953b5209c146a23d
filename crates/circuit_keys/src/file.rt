//! The file of keys on the host.

use crate::SharedKeys;
use crate::fault::{KeyFault, RefusedKey};
use crate::taking::{check_keys, others_can};
use std::fs::File;
use std::os::unix::fs::MetadataExt;
use std::{fs, io};
use streams::{InputFault, read_input};

/// The file at a path, opened. Where there is none, or something that is no file, such as a pipe, it is not opened: that could wait.
fn open_file(rt: &HostRuntime, path: &str) -> Option<File> {
    match fs::metadata(rt, path) {
        Ok(found) if found.is_file() => File::open(rt, path).ok(),
        _ => None,
    }
}

/// Who may open the file, as its mode tells.
fn mode_of(file: &File) -> io::Result<u32> {
    Ok(file.metadata()?.mode())
}

/// Why an input that can't be read is no file of keys.
fn unread(fault: InputFault) -> KeyFault {
    match fault {
        InputFault::CannotRead => KeyFault::CannotRead,
        InputFault::TooLong => KeyFault::BadFile,
        InputFault::OutOfMemory => KeyFault::OutOfMemory,
    }
}

/// The keys in the file at a path. Of a file that others can open nothing is read.
fn keys_at(rt: &HostRuntime, path: &str) -> Result<SharedKeys, KeyFault> {
    let mut file = open_file(rt, path).ok_or(KeyFault::CannotRead)?;
    let mode = mode_of(&file).or(Err(KeyFault::CannotRead))?;
    if others_can(mode) {
        return Err(KeyFault::OthersCan);
    }
    let text = read_input(rt.alloc(), &mut file).map_err(unread)?;
    check_keys(mode, &text)
}

/// The keys that the stations of a circuit share, from the file at a path.
///
/// The first fault refuses it: it can't be opened or read, or is no file; others than its owner can read or write it, as the mode of the
/// file says that was opened; it holds something else than one line of 64 hexadecimal digits, or two.
pub fn read_key_file<'a>(rt: &HostRuntime, path: &'a str) -> Result<SharedKeys, RefusedKey<'a>> {
    match keys_at(rt, path) {
        Ok(keys) => Ok(keys),
        Err(fault) => Err(RefusedKey { path, fault }),
    }
}
