//! One number's proposal, from its first ballot until it is closed.
#![tactic(auto)]

mod answer;
pub mod laws;
mod promises;
mod proposal;
mod slot;

pub use answer::{BeginRefusal, Counted, DueAnswer};
pub use proposal::{Beginning, Proposal};
