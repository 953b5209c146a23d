//! What stands in place of the status file of a station.

use configuration::Config;
use folders::FolderFault;
use plant_status::{StatusOwner, may_be_replaced, owner_text};
use std::alloc::{AllocError, Global};
use std::fs;
use std::fs::File;
use std::io::{ErrorKind, Read};

/// How much is read of what stands there: more than any status has.
const MOST: u64 = 65_536;

/// What each status of the station of a configuration begins with.
pub fn owner_of(alloc: Global, config: &Config) -> Result<String, AllocError> {
    let owner = StatusOwner {
        member: config.member.get(),
        // A circuit has no more than 15.
        count: u8::try_from(config.stations.len()).unwrap_or(u8::MAX),
        circuit: config.circuit,
    };
    owner_text(alloc, owner)
}

/// What the file at a path holds, or how it begins where it is longer than any status.
fn begin_of(rt: &HostRuntime, path: &str) -> Result<Vec<u8>, FolderFault> {
    let mut begin = Vec::new(rt.alloc());
    File::open(rt, path)?.take(MOST).read_to_end(&mut begin)?;
    Ok(begin)
}

/// Refuses to replace what stands at a path, unless that is nothing, or a status of the station whose statuses begin with this text. Nothing but a
/// plain file is opened, and none that is longer than any status is replaced.
pub fn test_own(rt: &HostRuntime, path: &str, owner: &str) -> Result<(), FolderFault> {
    match fs::symlink_metadata(rt, path) {
        Ok(data) if !data.is_file() => Err(FolderFault::NoFile),
        Ok(data) => {
            if data.len() < MOST && may_be_replaced(&begin_of(rt, path)?, owner) {
                Ok(())
            } else {
                Err(FolderFault::Changed)
            }
        }
        Err(error) if error.kind() == ErrorKind::NotFound => Ok(()),
        Err(error) => Err(FolderFault::from(error)),
    }
}

/// Whether something stands in place of the status file of a configuration that is no status of its station. What can't be looked at is told once a
/// status is written.
pub(crate) fn is_status_taken(rt: &HostRuntime, config: &Config) -> Result<bool, AllocError> {
    let Some(folders) = &config.folders else {
        return Ok(false);
    };
    let Some(path) = &folders.status else {
        return Ok(false);
    };
    let owner = owner_of(rt.alloc(), config)?;
    let tested = test_own(rt, path.as_str(), owner.as_str());
    Ok(matches!(tested, Err(FolderFault::NoFile | FolderFault::Changed)))
}
