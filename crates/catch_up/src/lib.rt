//! What a plant does to catch up: what it asks of the others about the numbers that it lacks, and what it tells those that ask it. No
//! station, no socket and no clock is in it: it is told what came and what was done, and is asked for one errand at a time.
#![tactic(auto)]

mod asked;
mod asker;
mod before;
mod calls;
mod catch_up;
mod errand;
mod errands;
mod hearing;
mod lacking;
mod majority;
mod news;
mod own;
mod packet;
mod recalling;
mod start;
mod unheard;
mod values;
mod wave;

pub use catch_up::CatchUp;
pub use errand::Errand;
pub use packet::PacketHead;
pub use start::Start;
pub use unheard::Unheard;
pub use wave::{ToldBy, Wave};
