//! What an operator does with a plant beside running it: its configuration is checked, and its station is ended.
#![tactic(auto)]

mod addresses;
mod checking;
mod count;
mod files;
mod fitting;
mod folders_check;
mod key_check;
mod oddity;
mod place;
mod reach;
mod status_check;
mod stopping;

pub use checking::check_config;
pub use count::is_even;
pub use fitting::{elevate_frame, fitting_frame};
pub use folders_check::{Placed, test_places};
pub use oddity::{Oddity, oddity_of};
pub use place::{HostPlace, place_of};
pub use reach::{Reach, reach_of};
pub use status_check::{owner_of, test_own};
pub use stopping::stop;
