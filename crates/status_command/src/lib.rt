//! The command `status`: how the station of a configuration stands, as its status file tells, and whether it is well.
#![tactic(auto)]

mod command;
mod fault;
mod file;
mod json;
mod shown;
mod watching;

pub use command::{Shape, StatusOrder, status};
