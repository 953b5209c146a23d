//! How a plant heals what it has heard of: which numbers it lacks, and when it recalls and seeks them. No station, no socket and no
//! clock is in it: it is told what happened, and when, and asked for what comes next.
#![tactic(auto)]

mod batch;
mod case;
mod due;
mod healing;
pub mod laws;
mod lists;
mod news;
mod repeats;
mod ripe;
mod voters;
mod wanted;

pub use case::{LackStage, LackedNumber};
pub use healing::Healing;
pub use news::NumberNews;
pub use voters::Voters;
pub use wanted::{Batch, Want};
