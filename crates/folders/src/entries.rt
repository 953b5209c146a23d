//! Folders that others can replace: which of them is worked in, and what is put back from one.

ghost use Rattle.std.specs.Prelude.{◌≡◌, ◌↔◌, IsTrue, OnOk, true};
ghost use Rattle.folders.specs.Entries.{IsSeenFolder};
ghost use Rattle.folders.specs.Offers.{IsLeft};

use crate::fault::FolderFault;
use crate::names::is_left;
use crate::stamp::FileId;

/// What stands under a name, where no link is followed.
#[derive(Clone, Copy)]
pub enum Entry {
    Folder(FileId),
    /// A link, a file, or anything else.
    Other,
}

/// Refuses a folder that was opened by its name, unless it is the one that was seen there: no link was followed, and nothing was put in its place
/// meanwhile.
pub fn test_seen(seen: Entry, opened: FileId) -> Result<(), FolderFault>
    ensures { OnOk result (IsSeenFolder seen opened) }
{
    match seen {
        Entry::Other => Err(FolderFault::NoFolder),
        Entry::Folder(id) => {
            if id.device == opened.device && id.inode == opened.inode {
                Ok(())
            } else {
                Err(FolderFault::Changed)
            }
        }
    }
}

/// Whether what lies under a name in the passage may be put back among the offers: a plain file that a run could have moved there. Anything else
/// was laid there by somebody.
pub fn may_return(name: &str, is_plain: bool) -> bool
    ensures { IsTrue result ↔ ((is_plain ≡ true) × ¬ IsLeft name.now) }
{
    is_plain && !is_left(name)
}
