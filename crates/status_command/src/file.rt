//! The status file.

use crate::fault::StatusFault;
use command_ends::Fault;
use configuration::Config;
use inputs::read_text;
use plant_status::{Status, read};
use std::io::ErrorKind;
use std::{fs, str};
use streams::InputFile;

/// Whether there is a plain file at a path.
fn look_at(rt: &HostRuntime, path: &str) -> Result<(), StatusFault> {
    match fs::metadata(rt, path) {
        Ok(found) if found.is_file() => Ok(()),
        Ok(_) => Err(StatusFault::NoFile),
        Err(error) if error.kind() == ErrorKind::NotFound => Err(StatusFault::Missing),
        Err(_) => Err(StatusFault::Unreadable),
    }
}

/// What a file holds.
fn bytes_at(rt: &HostRuntime, path: &str) -> Result<Vec<u8>, StatusFault> {
    look_at(rt, path)?;
    match read_text(rt.alloc(), &mut InputFile::at(rt, path), path) {
        Ok(bytes) => Ok(bytes),
        Err(Fault::OutOfMemory) => Err(StatusFault::OutOfMemory),
        Err(Fault::InputTooLong) => Err(StatusFault::NoText),
        Err(_) => Err(StatusFault::Unreadable),
    }
}

/// The status in a file.
fn read_at(rt: &HostRuntime, path: &str) -> Result<Status, StatusFault> {
    let bytes = bytes_at(rt, path)?;
    match str::from_utf8(bytes.as_slice()) {
        Ok(text) => Ok(read(rt.alloc(), text)?),
        Err(_) => Err(StatusFault::NoText),
    }
}

/// Whether a status is of the station of a configuration.
fn is_own(status: &Status, config: &Config) -> bool {
    status.station.member == config.member.get()
        && (status.station.circuit == config.circuit
            && status.station.count as usize == config.stations.len())
}

/// The status in the file at a path, which is to be of the station of a configuration.
pub(crate) fn status_at(
    rt: &HostRuntime,
    path: &str,
    config: &Config,
) -> Result<Status, StatusFault> {
    let status = read_at(rt, path)?;
    if is_own(&status, config) {
        Ok(status)
    } else {
        Err(StatusFault::Other)
    }
}
