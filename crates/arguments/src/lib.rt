//! What the words of a call ask the program for, by the grammar that `clap` is told.
#![tactic(auto)]

mod asked;
mod grammar;
mod plan;
mod taking;

pub use asked::{Asked, ReelPlan, Unasked};
pub use grammar::VERSION;
pub use plan::{
    CreatePlan, InitPlan, KeyAsked, Members, Mismatch, Plan, RenewPlan, RunPlan, TapeOffer,
};
pub use taking::asked_by;
