//! How each line of a tape fits, whatever is wrong with the others.
#![tactic(auto)]

mod codes;
mod fitting;
pub mod laws;
mod pending;
mod sizes;
mod tally;
mod verdict;

pub use fitting::{Fitting, fit};
pub use verdict::{LineFit, Verdict};
