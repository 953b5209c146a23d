//! The votes that were heard for one number, and what they show as chosen.
#![tactic(auto)]

mod heard;
pub mod laws;
mod slot;

pub use heard::Heard;
