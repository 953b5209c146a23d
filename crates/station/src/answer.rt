//! What a step of a station hands out.

ghost use Rattle.std.specs.Prelude.{◌≡◌};
ghost use Rattle.station.specs.Readiness.{IsIdle};

use ballots::{Member, Number};
use line_check::{SetFault, Slug};
use node_core::Note;
use std::alloc::Global;
use std::marker::Model;
use tape_frames::Entry;

/// The spelling of a packet on its way to a member. Clauses see its addressee and its bytes.
#[derive(Drop)]
pub struct Datagram {
    pub(crate) to: Member,
    pub(crate) bytes: Vec<u8>,
}

impl Model for Datagram {
    ghost use Rattle.protocol.specs.Circuit.{Datagram as DatagramValue};

    ghost Value = { DatagramValue };

    ghost view = { λ d. record { to = d.to; bytes = d.bytes.items } };
}

impl Datagram {
    /// The member that it goes to.
    pub fn to(&self) -> Member
        ensures { result ≡ self.now.to }
    {
        self.to
    }

    /// Its bytes, 17 at least; 4,121 at most in version 1, and 12,313 in version 2.
    pub fn bytes(&self) -> &[u8]
        ensures { result.now ≡ self.now.bytes }
    {
        self.bytes.as_slice()
    }

    /// The member that it goes to, and its bytes, given up.
    pub fn into_parts(self) -> (Member, Vec<u8>)
        ensures to { result.0 ≡ self.to }
        ensures bytes { result.1.items ≡ self.bytes }
    {
        (self.to, self.bytes)
    }
}

/// An entry that was released, and what the station's own code table and widths make of it: of a tape its slugs or
/// its first fault, of a withdrawal no slug.
#[derive(Drop)]
pub struct Release {
    pub number: Number,
    pub entry: Entry,
    pub set: Result<Vec<Slug>, SetFault>,
}

/// What a step that was done hands out: the number that it was about, none where nothing was due; the datagrams to send, at most 28;
/// the release if there is one; and what the step did in a word.
#[derive(Drop)]
pub struct Answer {
    pub number: Option<Number>,
    pub out: Vec<Datagram>,
    pub release: Option<Release>,
    pub note: Note,
}

impl Answer {
    /// The answer where nothing is due.
    pub(crate) fn idle(alloc: Global) -> Answer
        ensures { IsIdle result }
    {
        Answer {
            number: None,
            out: Vec::new(alloc),
            release: None,
            note: Note::Idle,
        }
    }
}
