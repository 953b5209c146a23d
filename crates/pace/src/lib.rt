//! How a station that stays up paces its work: which work comes next, which members are behind, and what waits in memory.
#![tactic(auto)]

pub mod laws;
mod members;
mod share;
mod turns;
mod waiting;
mod window;

pub use members::Pace;
pub use share::Incoming;
pub use turns::{Deeds, Done, LOOK, Sight, Turns, Work};
pub use waiting::{MOST_AFTER_A_SEND, MOST_RECEIVES, Waiting};
pub use window::Window;
