//! What stations tell one another of which numbers have a vote there, page by page, and its one spelling in bytes.
#![tactic(auto)]

mod aside;
mod bits;
mod body;
mod counts;
mod fault;
pub mod laws;
mod page;
mod reading;
mod roll;
mod votes;
mod writing;

pub use aside::{Aside, hear};
pub use body::RollBody;
pub use counts::Counts;
pub use fault::RollFault;
pub use page::{PAGE_BYTES, PAGE_NUMBERS, PAGES, Page};
pub use reading::decode;
pub use roll::Roll;
pub use votes::Votes;
pub use writing::encode;
