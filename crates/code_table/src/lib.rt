//! Code tables: what each frame of a tape means, unshifted and shifted.
#![tactic(auto)]

mod case;
mod entries;
mod entry;
mod fault;
mod keys;
mod meaning;
mod name;
mod table;

pub use case::Case;
pub use entry::FrameMeanings;
pub use fault::TableFault;
pub use meaning::Meaning;
pub use name::Name;
pub use table::CodeTable;
