//! The lines of the log.

ghost use Rattle.std.specs.Prelude.{◌≡◌, Some};
ghost use Rattle.catch_up_log.specs.Words.{line_text, spoken_word};

use crate::asking::Caught;
use crate::done::Answered;
use crate::unheards::Spoken;
use folders::FolderFault;
use std::fmt;

/// A line of the log.
#[derive(Clone, Copy)]
pub(crate) enum CatchUpLine<'a> {
    /// So many recalls or rolls were passed over, the last for this cause.
    Unheard {
        spoken: Spoken,
        cause: &'a str,
        count: u64,
    },
    /// So many numbers may be missing, which are named by their ranges.
    Missing {
        count: u32,
        names: &'a str,
    },
    /// A number was found missing, and is asked for.
    Missed(u32),
    /// Numbers were, which are named by their ranges.
    MissedRanges(&'a str),
    /// Nothing is left to ask for.
    CaughtUp(Caught),
    /// So many members were asked, and so many told.
    Few {
        asked: u8,
        told: u8,
    },
    /// All numbers of the file of this name are answered.
    Answered {
        name: &'a str,
        counts: Answered,
    },
    /// It can't be read what went out here.
    Unread(FolderFault),
}

impl fmt::Display for Spoken {
    ghost output = { λ s. Some (spoken_word s) };

    fn fmt<W: fmt::Write>(&self, f: &mut fmt::Formatter<W>) -> fmt::Result {
        match *self {
            Spoken::Recall => write!(f, "recall"),
            Spoken::Roll => write!(f, "roll"),
        }
    }
}

impl<'a> fmt::Display for CatchUpLine<'a> {
    ghost output = { λ l. Some (line_text l) };

    fn fmt<W: fmt::Write>(&self, f: &mut fmt::Formatter<W>) -> fmt::Result {
        match *self {
            CatchUpLine::Unheard {
                spoken,
                cause,
                count,
            } => write!(f, "{spoken}: refused {cause}, {count} since the last"),
            CatchUpLine::Missing { count, names } => write!(
                f,
                "{count} may be missing from before: {names}"
            ),
            CatchUpLine::Missed(number) => write!(f, "{number} missed, asked for"),
            CatchUpLine::MissedRanges(names) => write!(f, "{names} missed, asked for"),
            CatchUpLine::CaughtUp(wave) => write!(
                f,
                "caught up: {} released, {} nothing",
                wave.released, wave.nothing
            ),
            CatchUpLine::Few { asked, told } => write!(f, "asked {asked}, told by {told}"),
            CatchUpLine::Answered { name, counts } => write!(
                f,
                "done {name}: {} tapes, {} void, {} nothing",
                counts.tapes, counts.voids, counts.nothing
            ),
            CatchUpLine::Unread(fault) => write!(
                f,
                "folders: cannot read .released: {fault}; what is missing here is not asked for until it can be read"
            ),
        }
    }
}
