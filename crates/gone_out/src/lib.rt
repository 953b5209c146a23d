//! What went out at a plant, kept over a restart: the bytes of the file `.released`, and the set of numbers that they hold.
#![tactic(auto)]

mod bits;
mod known;
pub mod laws;
mod numbers;
mod origin;
mod ranges;
mod reading;
mod writing;

pub use known::Known;
pub use numbers::Numbers;
pub use origin::Origin;
pub use ranges::Range;
pub use reading::{head_of, numbers_of, whole_len};
pub use writing::{HEAD_LEN, RECORD_LEN, head, record};
