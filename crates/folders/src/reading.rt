//! A file of the offers is read between two looks at it.

ghost use Rattle.std.specs.Prelude.{◌≡◌, ◌∷◌, [], List, Option, None, IfOk, OnOk, length};
ghost use Rattle.folders.specs.Stamps.{IsUnchanged};
ghost use Rattle.folders.specs.Steps.{Adds, Glance, had, held, Finds, IsReadBetween};

use crate::fault::FolderFault;
use crate::stamp::{Stamp, is_unchanged};
use std::alloc::Global;

/// A file of the offers that is open.
pub trait Opened {
    // What was seen of it, in order, where that is known: its stamps, and what it held.
    ghost seen: { Self → Option (List Glance) } = { λ _. None };

    /// Its stamp, as it is now.
    fn stamp(&mut self) -> Result<Stamp, FolderFault>
        ensures { IfOk result (λ s. Adds (seen self.old) (seen self.new) (had s ∷ [])) };

    /// What it holds: of so many bytes the first.
    fn bytes(&mut self, alloc: Global, most: u64) -> Result<Vec<u8>, FolderFault>
        ensures { IfOk result (λ v. Adds (seen self.old) (seen self.new) (held v.items ∷ [])) };
}

/// Refuses a file that is not as it was found.
pub fn test_same(found: Stamp, now: Stamp) -> Result<(), FolderFault>
    ensures { OnOk result (IsUnchanged found now) }
{
    if is_unchanged(found, now) {
        Ok(())
    } else {
        Err(FolderFault::Changed)
    }
}

/// Looks at an open file, and refuses one that is not as it was found.
fn find_again<O: Opened>(file: &mut O, stamp: Stamp) -> Result<(), FolderFault>
    ensures { OnOk result (Finds (O.seen file.old) (O.seen file.new) stamp) }
{
    let now = file.stamp()?;
    test_same(stamp, now)
}

/// What was read of a file between two looks that found it unchanged. [`read_between`] alone makes one: who reads a file otherwise has none to hand on.
#[derive(Drop)]
pub struct WholeRead {
    bytes: Vec<u8>,
}

impl WholeRead {
    /// What the file held.
    pub fn into_bytes(self) -> Vec<u8>
        ensures { result ≡ self.bytes }
    {
        let WholeRead { bytes } = self;
        bytes
    }
}

/// What an open file holds. It is seen to be the one that was found with this stamp before it is read, and afterwards; where it is not, or
/// holds fewer bytes, `Changed`.
#[tactic(auto, using(crate::proofs::Steps::read_between))]
pub fn read_between<O: Opened>(
    alloc: Global,
    file: &mut O,
    stamp: Stamp,
) -> Result<WholeRead, FolderFault>
    ensures length { IfOk result (λ r. length r.bytes.items ≡ stamp.length) }
    ensures between { IfOk result (λ r. IsReadBetween (O.seen file.old) (O.seen file.new) stamp r.bytes.items) }
{
    find_again(file, stamp)?;
    let bytes = file.bytes(alloc, stamp.length)?;
    find_again(file, stamp)?;
    if bytes.len() as u64 == stamp.length {
        Ok(WholeRead { bytes })
    } else {
        Err(FolderFault::Changed)
    }
}
