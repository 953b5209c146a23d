//! The life of a row file: a number that its header and its log have in common from a start to the next, so that a log which is
//! missing, or of another time, is noticed.
#![tactic(auto)]

mod beginning;
mod copying;
pub mod laws;
mod log_head;
mod looking;
mod marks;
mod sums;

pub use beginning::{begin_life, end_life};
pub use log_head::{LOG_HEAD_LEN, log_of};
pub use looking::pair_on;
