//! What the host gives a process: its standard streams, the limit of its files, and who wants to be told how it is.
#![tactic(auto)]

mod descriptors;
mod limits;
mod lines;
mod manager;
mod moment;
mod patience;
mod told;
mod writer;

pub use descriptors::fill_descriptors;
pub use limits::file_limit;
pub use manager::Manager;
pub use patience::Patience;
pub use told::StandardError;
pub use writer::TimedLines;
