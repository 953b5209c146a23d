//! The status file of a plant, on the machine that the program runs on; a service manager is told what it says.

use crate::manager_text::tell_status;
use folders::FolderFault;
use host_process::Manager;
use plant_commands::test_own;
use plant_status::{StatusFile, seconds_now};
use station_files::next_path;
use std::alloc::Global;
use std::fs;
use std::fs::File;
use std::io::Write;

/// The status file of a plant, where it has one.
#[derive(Drop)]
pub(crate) struct HostStatus<'r> {
    pub(crate) rt: &'r HostRuntime,
    pub(crate) path: Option<String>,
    /// Who wants to be told how the station is, if anybody does.
    pub(crate) manager: Option<Manager>,
    /// What each status of this station begins with.
    pub(crate) owner: String,
}

/// The path of a status file, that of the one which takes its place, and what each of them begins with.
#[derive(Clone, Copy)]
struct StatusPaths<'p> {
    own: &'p str,
    next: &'p str,
    owner: &'p str,
}

/// Makes a file of a name that is free, with a text.
fn make(rt: &HostRuntime, path: &str, text: &str) -> Result<(), FolderFault> {
    let mut file = File::create_new(rt, path)?;
    file.write_all(text.as_bytes())?;
    Ok(())
}

/// Puts a text in place of a status: beside it first, and then by renaming.
fn replace(rt: &HostRuntime, paths: StatusPaths<'_>, text: &str) -> Result<(), FolderFault> {
    let StatusPaths { own, next, owner } = paths;
    test_own(rt, own, owner)?;
    test_own(rt, next, owner)?;
    // One that a kill left behind.
    let _ = fs::remove_file(rt, next);
    make(rt, next, text)?;
    Ok(fs::rename(rt, next, own)?)
}

impl<'r> StatusFile for HostStatus<'r> {
    fn seconds(&self) -> Option<u64> {
        seconds_now(self.rt)
    }

    fn replace(&mut self, alloc: Global, text: &str) -> Result<(), FolderFault> {
        let Some(path) = &self.path else {
            return Ok(());
        };
        tell_status(alloc, &self.manager, text);
        let next = next_path(alloc, path.as_str())?;
        let paths = StatusPaths {
            own: path.as_str(),
            next: next.as_str(),
            owner: self.owner.as_str(),
        };
        replace(self.rt, paths, text)
    }
}
