//! Where a status is written.

use folders::FolderFault;
use std::alloc::Global;

/// The status file of a plant, and the clock by which its moments are told.
pub trait StatusFile {
    /// How many seconds ago 1970 began, where the clock tells it.
    fn seconds(&self) -> Option<u64>;

    /// Puts this text in place of what stands in the file, all at once: whoever reads it finds the one text or the other.
    fn replace(&mut self, alloc: Global, text: &str) -> Result<(), FolderFault>;
}

/// No status file.
#[derive(Clone, Copy)]
pub struct NoStatus;

impl StatusFile for NoStatus {
    fn seconds(&self) -> Option<u64> {
        None
    }

    fn replace(&mut self, _alloc: Global, _text: &str) -> Result<(), FolderFault> {
        Ok(())
    }
}
