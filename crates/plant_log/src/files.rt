//! Faults of files that go on.

ghost use Rattle.std.specs.Prelude.{◌≡◌, []};
ghost use Rattle.std.specs.Ordering.{nat_cmp};
ghost use Rattle.std.specs.BTreeMap.{get};
ghost use Rattle.offers.specs.Order.{rank};
ghost use Rattle.plant_log.specs.Keeping.{Forgets};
ghost use Rattle.plant_log.specs.Troubles.{is_gone, Notices};

use crate::room::keep;
use crate::standing::{Standing, is_told_anew};
use folders::{FileRequest, FolderFault};
use offers::rank;
use std::alloc::Global;
use std::collections::BTreeMap;

/// What can't be done with the file that asks for this, and why.
#[derive(Clone, Copy)]
pub struct Trouble {
    pub request: FileRequest,
    pub fault: FolderFault,
}

/// Why files were not read or moved, as it was told last, by their places among all files that there can be: of 65,536 at most.
#[derive(Drop)]
pub(crate) struct ToldFaults {
    kept: BTreeMap<u32, Standing>,
}

/// Whether it is a fault of a file that is gone, or another by now: it is found anew.
fn is_gone(fault: FolderFault) -> bool
    ensures { result ≡ is_gone fault }
{
    matches!(fault, FolderFault::Missing | FolderFault::Changed)
}

impl ToldFaults {
    /// Nothing was told of any.
    pub(crate) fn new(alloc: Global) -> ToldFaults
        ensures { result.kept.entries ≡ [] }
    {
        ToldFaults {
            kept: BTreeMap::new(alloc),
        }
    }

    /// What was told last of the file at this place.
    fn last(&self, key: u32) -> Option<Standing>
        ensures { result ≡ get nat_cmp self.now.kept key }
    {
        match self.kept.get(&key) {
            Some(standing) => Some(*standing),
            None => None,
        }
    }

    /// Whether a trouble with a file is told, at a moment in milliseconds.
    pub(crate) fn is_told(&mut self, trouble: &Trouble, now: u64) -> bool
        ensures { Notices (rank trouble.now.request) trouble.now.fault now result self.old.kept self.new.kept }
    {
        let key = rank(trouble.request);
        let fault = trouble.fault;
        if is_gone(fault) || !is_told_anew(self.last(key), fault, now) {
            return false;
        }
        let _ = keep(&mut self.kept, key, Standing { fault, at: now });
        true
    }

    /// The file that asks for this was read, or moved: what was told of it is forgotten.
    pub(crate) fn done(&mut self, request: FileRequest)
        ensures { Forgets (rank request) self.old.kept self.new.kept }
    {
        self.kept.remove(&rank(request));
    }
}
