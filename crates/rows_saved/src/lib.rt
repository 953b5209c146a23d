//! Saved rows, a finite map from numbers to rows: what a station asks of them, two kinds that need no database, and rows of which many
//! are saved as one.
#![tactic(auto)]

mod balky;
mod fault;
mod grouped;
mod identity;
mod memory;
mod rows;
mod saves_all;
mod settles;

pub use balky::Balky;
pub use fault::RowsFault;
pub use grouped::Grouped;
pub use identity::Identity;
pub use memory::MemoryRows;
pub use rows::Rows;
pub use saves_all::SavesAll;
pub use settles::{Settles, StoresAtOnce};
