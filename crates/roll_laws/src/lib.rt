//! Laws of what the members of a circuit tell of their votes. The definitions are in `specs/`; there is no other code in this crate.
#![tactic(auto)]

pub mod laws;
