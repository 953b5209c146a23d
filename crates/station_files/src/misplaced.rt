//! Why a station is not run with its files and folders where they are.

use crate::file::StationFile;
use crate::homes::Holder;
use crate::traces::Clash;
use std::fmt;

/// Why a station is not run with its files and folders where they are.
#[derive(Clone, Copy)]
pub enum Misplaced {
    /// This file lies within a folder, from where it would be moved.
    Within(Holder, StationFile),
    /// Two are one.
    Same(Clash),
    /// What stands in place of the status file is none of this station.
    NoStatus,
}

/// What is the matter, in three words or so: what, that it is or holds, and which.
#[derive(Clone, Copy)]
pub struct MisplacedWords {
    pub what: &'static str,
    pub how: &'static str,
    pub which: &'static str,
}

/// Two files that are one, in words. That the status is which other file is told by its key.
fn clash_words(clash: Clash) -> MisplacedWords {
    let Clash { first, second } = clash;
    match (first, second) {
        (StationFile::Offers, StationFile::Releases) => MisplacedWords {
            what: "offers and releases",
            how: "are",
            which: "one folder",
        },
        (first, StationFile::Status) => MisplacedWords {
            what: "status",
            how: "is",
            which: first.word(),
        },
        // The folder that is configured, and the place which it is.
        (StationFile::Releases, second) => MisplacedWords {
            what: "releases",
            how: "is",
            which: second.word(),
        },
        (first, second) => MisplacedWords {
            what: second.word(),
            how: "is",
            which: first.word(),
        },
    }
}

impl Misplaced {
    /// It in words, as `offers`, `holds` and `the table`.
    pub fn words(self) -> MisplacedWords {
        match self {
            Misplaced::Within(holder, file) => MisplacedWords {
                what: holder.word(),
                how: "holds",
                which: file.word(),
            },
            Misplaced::Same(clash) => clash_words(clash),
            Misplaced::NoStatus => MisplacedWords {
                what: "status",
                how: "is",
                which: "no status of this station",
            },
        }
    }
}

impl fmt::Display for Misplaced {
    fn fmt<W: fmt::Write>(&self, f: &mut fmt::Formatter<W>) -> fmt::Result {
        let MisplacedWords { what, how, which } = self.words();
        write!(f, "{what} {how} {which}")
    }
}
