//! What a station that stays up is, and how it stands.

use crate::moment::Moment;

/// Which station it is.
#[derive(Clone, Copy)]
pub struct StationId {
    pub member: u8,
    /// How many members its circuit has.
    pub count: u8,
    pub circuit: u16,
    /// The layout of its saved rows.
    pub layout: u8,
}

/// Another member, and when it was last heard; not since the start where there is no moment.
#[derive(Clone, Copy)]
pub struct HeardMember {
    pub member: u8,
    pub at: Option<Moment>,
    /// Whether its last packet showed that its rows are of layout 1, while those of the station are of layout 2.
    pub is_older: bool,
}

/// How many numbers were released, and the greatest of them; 0 where none was.
#[derive(Clone, Copy)]
pub struct Released {
    pub count: u32,
    pub greatest: u32,
}

/// What a ballot is opened for.
#[derive(Clone, Copy)]
pub enum Purpose {
    /// A search.
    Seek,
    /// A tape that is offered, or a withdrawal.
    Offer,
}

/// A number under way: its ballot has this round, and is of this member.
#[derive(Clone, Copy)]
pub struct Busy {
    pub number: u32,
    pub purpose: Purpose,
    pub round: u32,
    pub owner: u8,
}

/// The numbers from one to another.
#[derive(Clone, Copy)]
pub struct NumberSpan {
    pub first: u32,
    pub last: u32,
}

/// What is missing: the circuit has it, as far as the station knows, and it was not released here.
#[derive(Drop)]
pub struct Missing {
    /// Its first ranges, 20 at most.
    pub spans: Vec<NumberSpan>,
    /// Whether there are more.
    pub more: bool,
    /// Since when something of it is missing.
    pub since: Moment,
}

/// How many files are among the offers, and how many left them since the start without being sent.
#[derive(Clone, Copy)]
pub struct OfferCounts {
    pub waiting: u32,
    pub lost: u32,
    pub refused: u32,
}

/// What a station is, and how it stood at a moment.
#[derive(Drop)]
pub struct Status {
    pub station: StationId,
    /// Since when it is up.
    pub since: Moment,
    /// The others of its circuit.
    pub members: Vec<HeardMember>,
    pub released: Released,
    pub busy: Vec<Busy>,
    pub missing: Option<Missing>,
    pub offers: OfferCounts,
    /// How many files wait to be written among the releases.
    pub unwritten: u32,
    /// When this was so.
    pub written: Moment,
}
