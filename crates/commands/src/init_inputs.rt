//! What `init` reads: tables, keys, and the plant that came before.

use circuit_keys::{KeyFault, RefusedKey, SharedKeys, read_key_file};
use command_ends::Fault;
use folders::{RELEASED, kept_of};
use gone_out::Origin;
use init_command::{InitFault, OldPlant, before_text};
use inputs::{table_of, widths_of};
use std::alloc::{AllocError, Global};
use std::fs;
use std::io::ErrorKind;
use std::random::RandomSource;
use streams::{InputFault, InputFile, read_input};

/// The most bytes of a record of what went out: twice what a record of each number takes.
const MOST_RECORD: u64 = 16_777_216;

/// A path of a plant, as it is reached from here: it begins in the plant's folder, unless it begins at the root.
pub(crate) fn path_in(alloc: Global, folder: &str, path: &str) -> Result<String, AllocError> {
    if path.starts_with('/') {
        return path.to_string(alloc);
    }
    format!(in alloc; "{folder}/{path}")
}

/// All bytes of the file at a path.
pub(crate) fn bytes_at(rt: &HostRuntime, path: &str) -> Result<Vec<u8>, InitFault> {
    match read_input(rt.alloc(), &mut InputFile::at(rt, path)) {
        Ok(bytes) => Ok(bytes),
        Err(InputFault::CannotRead) => Err(InitFault::CannotRead(path.to_string(rt.alloc())?)),
        Err(InputFault::TooLong) => Err(InitFault::Other(Fault::InputTooLong)),
        Err(InputFault::OutOfMemory) => Err(InitFault::Other(Fault::OutOfMemory)),
    }
}

/// The bytes of the code table at a path: it is one.
pub(crate) fn table_at(rt: &HostRuntime, path: &str) -> Result<Vec<u8>, InitFault> {
    let bytes = bytes_at(rt, path)?;
    table_of(rt.alloc(), &bytes)?;
    Ok(bytes)
}

/// The bytes of the width file at a path: it is one.
pub(crate) fn widths_at(rt: &HostRuntime, path: &str) -> Result<Vec<u8>, InitFault> {
    let bytes = bytes_at(rt, path)?;
    widths_of(rt.alloc(), &bytes)?;
    Ok(bytes)
}

/// The keys in the file at a path, which is taken as a station takes it.
pub(crate) fn keys_at(rt: &HostRuntime, path: &str) -> Result<SharedKeys, InitFault> {
    match read_key_file(rt, path) {
        Ok(keys) => Ok(keys),
        Err(refused) if refused.fault == KeyFault::CannotRead => {
            Err(InitFault::KeyUnread(path.to_string(rt.alloc())?))
        }
        Err(refused) => {
            let fault = refused.fault;
            Err(InitFault::Other(Fault::from(RefusedKey { path: "", fault })))
        }
    }
}

/// The keys in the file at a path, if something stands there.
pub(crate) fn keys_if_any(rt: &HostRuntime, path: &str) -> Result<Option<SharedKeys>, InitFault> {
    match fs::symlink_metadata(rt, path) {
        Err(error) if error.kind() == ErrorKind::NotFound => Ok(None),
        _ => Ok(Some(keys_at(rt, path)?)),
    }
}

/// A key that is drawn.
pub(crate) fn new_keys(rt: &HostRuntime) -> Result<SharedKeys, InitFault> {
    let mut first = [0u8; 32];
    match rt.fill_bytes(&mut first) {
        Ok(()) => Ok(SharedKeys {
            first,
            second: None,
        }),
        Err(_) => Err(InitFault::NoRandom),
    }
}

/// Whether two paths lead to one folder. One that isn't there yet is none.
pub(crate) fn is_one_folder(rt: &HostRuntime, first: &str, second: &str) -> bool {
    match (fs::canonicalize(rt, first), fs::canonicalize(rt, second)) {
        (Ok(first), Ok(second)) => first.as_str() == second.as_str(),
        _ => false,
    }
}

/// The plant in a folder.
pub(crate) fn old_plant_at(rt: &HostRuntime, folder: &str) -> Result<OldPlant, InitFault> {
    let path = path_in(rt.alloc(), folder, "station.toml")?;
    let bytes = bytes_at(rt, path.as_str())?;
    Ok(OldPlant::read(rt.alloc(), &bytes)?)
}

/// The station of an old plant, as the file of what went out at it names it.
fn origin_of(old: &OldPlant) -> Origin {
    Origin {
        circuit: old.config.circuit,
        member: old.config.member,
        count: u8::try_from(old.config.stations.len()).unwrap_or(0),
    }
}

/// The text of a record of what went out at an old plant; none where the bytes are no record of it.
fn record_text(alloc: Global, old: &OldPlant, bytes: &[u8]) -> Result<Option<String>, AllocError> {
    let own = origin_of(old);
    match kept_of(alloc, bytes, &own)? {
        Some(kept) => Ok(Some(before_text(alloc, &own, &kept.numbers)?)),
        None => Ok(None),
    }
}

/// The bytes of the record at a path, if one stands there. It has eight bytes for each number, so that it may be longer than other inputs.
fn record_at(rt: &HostRuntime, path: &str) -> Result<Option<Vec<u8>>, InitFault> {
    let found = match fs::metadata(rt, path) {
        Ok(found) if found.is_file() && found.len() <= MOST_RECORD => fs::read(rt, path),
        Err(error) if error.kind() == ErrorKind::NotFound => return Ok(None),
        _ => return Err(InitFault::CannotRead(path.to_string(rt.alloc())?)),
    };
    match found {
        Ok(bytes) => Ok(Some(bytes)),
        Err(_) => Err(InitFault::CannotRead(path.to_string(rt.alloc())?)),
    }
}

/// What went out at the plant in a folder, as text, if it has a record of that.
pub(crate) fn before_at(
    rt: &HostRuntime,
    folder: &str,
    old: &OldPlant,
) -> Result<Option<String>, InitFault> {
    let alloc = rt.alloc();
    let Some(folders) = &old.config.folders else {
        return Ok(None);
    };
    let releases = path_in(alloc, folder, folders.releases.as_str())?;
    let path = path_in(alloc, releases.as_str(), RELEASED)?;
    match record_at(rt, path.as_str())? {
        Some(bytes) => Ok(record_text(alloc, old, &bytes)?),
        None => Ok(None),
    }
}
