//! The folders of a plant: what is handed in among the offers, what its names ask for and when it is whole, and what is handed out
//! among the releases.
#![tactic(auto)]

mod acts;
mod change;
mod entries;
mod fault;
mod first_start;
mod folders;
mod leaving;
mod ledger;
mod lock_lines;
mod log_names;
mod memory;
mod moving;
mod named_file;
mod names;
mod none;
mod own_names;
mod pauses;
mod reading;
mod release_names;
mod released;
mod stamp;
mod wishes;

pub use acts::{Act, Noted};
pub use change::{Change, Records};
pub use entries::{Entry, may_return, test_seen};
pub use fault::FolderFault;
pub use first_start::{first_went_out, went_before};
pub use folders::{Folders, Found, Listing, News, PassedOver, Unwritten, WentOut};
pub use leaving::{Leaving, PLACES, Place, Return, copy_name, next_try, return_of, text_name};
pub use ledger::Ledger;
pub use lock_lines::{HeldLock, lock_in};
pub use log_names::shown_name;
pub use memory::MemoryFolders;
pub use moving::{Mover, move_behind};
pub use named_file::NamedFile;
pub use names::{
    FileRequest, OfferKind, STOP, Span, file_name, is_left, name_of, named, span_name, spanned,
};
pub use none::NoFolders;
pub use own_names::{LOCK, PASSAGE, is_own_name, own_name};
pub use pauses::{LAST_PAUSE, TELL, has_passed};
pub use reading::{Opened, WholeRead, read_between, test_same};
pub use release_names::{release_number, sent_number};
pub use released::{Kept, RELEASED, copy_of, kept_of};
pub use stamp::{FileId, Stamp, is_as_read, is_since, is_unchanged, nanos_of};
pub use wishes::{Wish, place_of};
