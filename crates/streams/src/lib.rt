//! Inputs of bounded length, files of the host that may not open, and output that stops at the first fault with a front written.
#![tactic(auto)]

mod input;
mod opened_files;
mod output;

pub use input::{InputFault, MAX_INPUT, read_input};
pub use opened_files::InputFile;
pub use output::{CannotWrite, PutFault, hand_on, put_all, put_parts, put_whole};
