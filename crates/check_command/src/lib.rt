//! The command `check`: the galley of a tape by a code table and widths.
#![tactic(auto)]

mod galley;

pub use galley::{CheckOrder, check};
