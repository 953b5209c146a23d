//! What was done with folders in memory.

use crate::leaving::Place;
use crate::named_file::NamedFile;
use ballots::Number;

/// A text that was written beside where a file goes.
#[derive(Drop)]
pub struct Noted {
    pub to: Place,
    pub name: String,
    pub text: String,
}

/// Something that was done with folders in memory.
#[derive(Drop)]
pub enum Act {
    /// A file of this name was found among the offers.
    Saw(String),
    /// This file of the offers was read.
    Read(NamedFile),
    /// This file was written among the releases.
    Wrote(NamedFile),
    /// It was noted that these numbers went out.
    NotedGone(Vec<Number>),
    /// It was noted that these numbers went out before that was kept.
    NotedBefore(Vec<Number>),
    /// A text was written beside where a file goes.
    Noted(Noted),
    /// The file of this name left the offers for a place.
    SetAside(String, Place),
    /// It was taken away.
    TakenAway(String),
}
