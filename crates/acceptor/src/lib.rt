//! An acceptor: its promises and votes for one number.
#![tactic(auto)]

mod answer;
mod request;
mod runs;

pub use answer::{AcceptAnswer, PrepareAnswer, accept, prepare};
pub use request::{Reply, Request};
pub use runs::run;
