//! What an editor asks for by hand, a range of numbers at a time: which of them are searched, when, and what came of each. No station,
//! no folder and no clock is in it: it is told what came of a search, and asked for the next.
#![tactic(auto)]

mod answer;
mod flying;
mod hand;
pub mod laws;
mod lines;
mod scan;

pub use answer::SearchEnd;
pub use hand::Hand;
