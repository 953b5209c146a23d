//! All stations of a circuit and the network between them, as lists of steps drive them; and the laws of agreement.
#![tactic(auto)]

mod call;
pub mod laws;
mod log_growth;
mod logs;
mod plays;
mod slugs;
mod step;
mod steps;
mod upgrade;
mod world;

pub use logs::{OfferLog, ReleaseLog};
pub use plays::{Founders, PlayFault, Played, circuit_in_memory, play, play_in_memory};
pub use slugs::Slugs;
pub use step::{Outcome, RunStop, Seen, Step, WorldRefusal};
pub use world::{NewWorldFault, World, member_count};
