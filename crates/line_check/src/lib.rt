//! Slugs: the lines of a tape, each filled to the measure, and their galley.
#![tactic(auto)]

mod fault;
mod galleys;
pub mod laws;
mod line;
mod setting;
mod slug;
mod sort;
mod tape;

pub use fault::{Cause, LineFault, SetError, SetFault};
pub use galleys::galley;
pub use line::{Tally, check, tally_of};
pub use setting::Setting;
pub use slug::{Kind, Slug};
pub use sort::{Sort, Sorts};
pub use streams::CannotWrite as WriteFault;
pub use tape::set;
