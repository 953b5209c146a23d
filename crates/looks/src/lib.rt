//! The looks at the offers of a plant: what a look found over several turns, when the next one comes, and the files whose names ask for
//! nothing. No folder and no clock is in it: it is told what was found, what came of each deed, and when.
#![tactic(auto)]

mod gathering;
mod looking;
mod merging;
mod requests;
mod sighting;
mod strays;

pub use gathering::EndedLook;
pub use looking::{Looking, MOST_NAMES};
pub use merging::Merging;
pub use requests::Requests;
pub use sighting::{Sighting, Stray};
pub use strays::{Strays, TakenIn};
