//! The files and folders of a station: where each stands, what each is called, and when two of them are one that must not be.
#![tactic(auto)]

mod file;
mod homes;
mod misplaced;
mod paths;
mod traces;

pub use file::{ALL, StationFile};
pub use homes::{Holder, Home, first_within};
pub use misplaced::{Misplaced, MisplacedWords};
pub use paths::{StationPaths, keeping_path, kept_path, log_path, making_path, next_path, path_of};
pub use traces::{Clash, Mark, Trace, first_clash};
