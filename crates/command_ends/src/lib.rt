//! How a command ends: its exit status, and the faults that a person reads.
#![tactic(auto)]

mod end;
mod fault;
mod fault_texts;
mod telling;

pub use end::End;
pub use fault::Fault;
pub use telling::{CommandFault, end_with, found_with, tell};
