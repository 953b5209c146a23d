//! The loop under `serve` and `run`: a station takes in what comes over its wire, sends what it hands out, and hands on what it releases.
#![tactic(auto)]

mod calls;
mod desk;
mod driver;
mod errands;
mod gathering;
mod group;
mod log;
mod machine;
mod pacing;
mod run_loop;
mod said;
mod sending;
mod serving;
mod sink;
mod taking_in;
mod telling;

pub use calls::Call;
pub use desk::{Chance, Declined, Denied, Desk, Todo};
pub use driver::Driver;
pub use log::Log;
pub use machine::Machine;
pub use pacing::Tasks;
pub use said::Said;
pub use sink::{HeardDatagram, Outlet, Sink, TakenStep};
pub use telling::NewerLayouts;
