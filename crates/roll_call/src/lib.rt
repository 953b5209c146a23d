//! What a station knows of the votes of its circuit by roll calls: how many numbers of each page have a vote at each member, and which.
#![tactic(auto)]

mod answers;
mod ask;
mod asker;
mod asks;
mod choice;
mod heard;
mod held;
pub mod laws;
mod look;
mod roll_call;
mod second;
mod teller;

pub use roll_call::RollCall;
pub use second::is_second_on;
