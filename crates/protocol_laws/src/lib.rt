//! The laws of the protocol, over the definitions of `protocol`. There is no other code in this crate.
#![tactic(auto)]

pub mod laws;
