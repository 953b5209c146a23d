//! How a plant that stays up sees to what is missing there: how it starts to catch up, what it is told and asks of catching up, what an
//! editor asks for by hand, what is told of all this, what is noted of what went out, and how all its numbers stand.
#![tactic(auto)]

mod ask;
mod beginning;
mod care;
mod noting;
mod ranges;
mod surveying;
mod telling;

pub use ask::RangeAsk;
pub use beginning::{CareStart, begin};
pub use care::Care;
pub use surveying::NumberSurvey;
