//! The text of an entry, and of a release as it is printed.
#![tactic(auto)]

mod entry_texts;
mod releases;

pub use entry_texts::entry_text;
pub use releases::{PrintedRelease, put_line, put_release, put_set};
