//! The processes of `serve` and `run`: what they tell of themselves, in one order, is a day of their circuit; the files that they
//! write agree; and with a key, what comes to a member rests on the key alone.
#![tactic(auto)]

pub mod laws;
pub mod sealed;
