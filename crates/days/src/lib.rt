//! The days of a circuit's processes: whatever they do, however often they end and begin again, what they release agrees.
#![tactic(auto)]

mod examples;
pub mod laws;

pub use examples::release_of_two;
