//! How a station that stays up tells: how much, and with or without times.
#![tactic(auto)]

mod loudness;

pub use loudness::{LogTerms, Loudness, loudness_of};
