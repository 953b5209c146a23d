//! What a roll says: a body of one of four kinds.

ghost use Rattle.std.specs.Prelude.{◌≡◌};
ghost use Rattle.rolls.specs.Kinds.{kind_of_byte, number_of_kind, body_len};
ghost use Rattle.rolls.specs.Bodies.{said, kind_of};

use crate::counts::Counts;
use crate::page::{PAGE_BYTES, PAGES, Page};
use crate::votes::Votes;

/// The bytes of an ask's body: what is asked for, and zeros behind it. So an ask is as long as the shortest packet.
pub(crate) const ASK_LEN: usize = 5;

/// The kind of a roll.
#[derive(Clone, Copy)]
pub(crate) enum RollKind {
    /// How many numbers of each page have a vote is asked.
    CountsAsked,
    /// How many they are.
    Counts,
    /// Which numbers of a page have a vote is asked.
    PageAsked,
    /// Which they are.
    Page,
}

impl RollKind {
    /// The kind of this number.
    pub(crate) fn of_byte(byte: u8) -> Option<RollKind>
        ensures { result ≡ kind_of_byte byte }
    {
        match byte {
            2 => Some(RollKind::CountsAsked),
            3 => Some(RollKind::Counts),
            4 => Some(RollKind::PageAsked),
            5 => Some(RollKind::Page),
            _ => None,
        }
    }

    /// Its number, the fourth byte of a roll.
    pub(crate) fn byte(self) -> u8
        ensures { result ≡ number_of_kind self }
    {
        match self {
            RollKind::CountsAsked => 2,
            RollKind::Counts => 3,
            RollKind::PageAsked => 4,
            RollKind::Page => 5,
        }
    }

    /// How many bytes a body of this kind has.
    pub(crate) fn body_len(self) -> usize
        ensures { result ≡ body_len self }
    {
        match self {
            RollKind::CountsAsked | RollKind::PageAsked => ASK_LEN,
            RollKind::Counts => 2 * PAGES,
            RollKind::Page => 1 + PAGE_BYTES,
        }
    }
}

/// What a roll says.
#[derive(Drop)]
pub enum RollBody {
    /// How many numbers of each page have a vote is asked.
    CountsAsked,
    /// How many numbers of each page have a vote.
    Counts(Counts),
    /// Which numbers of a page have a vote is asked.
    PageAsked(Page),
    /// Which numbers of a page have a vote.
    Page(Votes),
}

impl RollBody {
    /// The kind of roll that says this.
    pub(crate) fn kind(&self) -> RollKind
        ensures { result ≡ kind_of (said self.now) }
    {
        match self {
            RollBody::CountsAsked => RollKind::CountsAsked,
            RollBody::Counts(_) => RollKind::Counts,
            RollBody::PageAsked(_) => RollKind::PageAsked,
            RollBody::Page(_) => RollKind::Page,
        }
    }
}
