//! A station of a circuit: what it takes in changes its saved rows, and only then goes out.
#![tactic(auto)]

mod answer;
mod save;
mod speaker;
mod station;
mod steps;
mod upgrade;

pub use answer::{Answer, Datagram, Release};
pub use refusals::StepRefusal;
pub use station::{BadMember, Membership, Station};
