//! What one station asks another to tell again, and its one spelling in bytes.
#![tactic(auto)]

mod fault;
pub mod laws;
mod reading;
mod recall;
mod ticket;
mod writing;

pub use fault::RecallFault;
pub use reading::decode;
pub use recall::{MOST_RECALLED, Recall};
pub use ticket::Ticket;
pub use writing::encode;
