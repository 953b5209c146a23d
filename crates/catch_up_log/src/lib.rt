//! What a station that stays up tells of the numbers that are missing here, and of its file of what went out.
#![tactic(auto)]

mod asking;
mod done;
pub mod laws;
mod line;
mod missed;
mod missing;
mod ranges;
mod setting;
mod unheards;
mod unnoted;
mod writing;

pub use asking::{Caught, tell_caught_up, tell_few};
pub use done::{Answered, tell_answered};
pub use missed::Missed;
pub use missing::tell_missing;
pub use setting::{tell_set_aside, tell_unread};
pub use unheards::{Spoken, Unheards};
pub use unnoted::Unnoted;
