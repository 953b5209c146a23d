//! The command line: the command that the words of a call give, and what is written where they give none.
#![tactic(auto)]

mod parsing;
mod version;

pub use arguments::{
    Asked, CreatePlan, InitPlan, KeyAsked, Members, Plan, ReelPlan, RenewPlan, RunPlan, TapeOffer,
};
pub use parsing::parse;
pub use version::print_version;
