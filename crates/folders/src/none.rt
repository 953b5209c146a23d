//! No folders.

use crate::fault::FolderFault;
use crate::folders::{Folders, Listing, Unwritten, WentOut};
use crate::leaving::Leaving;
use crate::named_file::NamedFile;
use crate::stamp::Stamp;
use ballots::Number;
use gone_out::{Numbers, Origin};
use std::alloc::Global;

/// The folders of a plant that has none: nothing lies among the offers, and what is written goes nowhere.
#[derive(Clone, Copy)]
pub struct NoFolders;

impl Folders for NoFolders {
    fn list(&mut self, alloc: Global, _most: usize) -> Result<Listing, FolderFault> {
        Ok(Listing::new(alloc))
    }

    fn has_stop(&self, _alloc: Global) -> bool {
        false
    }

    fn read(
        &mut self,
        _alloc: Global,
        _name: &str,
        _stamp: Stamp,
        _most: usize,
    ) -> Result<Option<Vec<u8>>, FolderFault> {
        Err(FolderFault::Missing)
    }

    fn put_all(&mut self, _alloc: Global, _files: &[NamedFile]) -> Result<(), Unwritten> {
        Ok(())
    }

    fn set_aside(
        &mut self,
        _alloc: Global,
        _leaving: Leaving<'_>,
        _beside: Option<&str>,
    ) -> Result<(), FolderFault> {
        Err(FolderFault::Missing)
    }

    fn remove(&mut self, _alloc: Global, _name: &str) -> Result<(), FolderFault> {
        Err(FolderFault::Missing)
    }

    fn went_out(
        &mut self,
        _alloc: Global,
        _own: &Origin,
        _known: &Numbers,
    ) -> Result<Option<WentOut>, FolderFault> {
        Ok(None)
    }

    fn note_gone(&mut self, _alloc: Global, _numbers: &[Number]) -> Result<(), FolderFault> {
        Ok(())
    }

    fn note_before(&mut self, _alloc: Global, _numbers: &[Number]) -> Result<(), FolderFault> {
        Ok(())
    }

    fn settle(&mut self, _alloc: Global) -> Result<(), FolderFault> {
        Ok(())
    }
}
