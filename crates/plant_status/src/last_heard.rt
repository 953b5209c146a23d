//! When each other member was heard, as it is kept in mind.

ghost use Rattle.std.specs.Prelude.{◌≡◌};
ghost use Rattle.plant_status.specs.Timing.{is_past, is_silent};

use ballots::Member;
use folders::has_passed;
use std::alloc::{AllocError, Global};

/// How long a member has to be silent, so that it is news that it is heard, in milliseconds.
const SILENT: u64 = 10_000;

/// Another member, and the moment at which it was heard last, in milliseconds.
#[derive(Clone, Copy)]
pub(crate) struct LastHeard {
    pub(crate) member: u8,
    pub(crate) at: Option<u64>,
    /// Whether its last packet showed that its rows are of layout 1, while those of the station are of layout 2.
    pub(crate) is_older: bool,
}

/// The others of a circuit of so many, none of which was heard.
pub(crate) fn others(alloc: Global, own: u8, count: u8) -> Result<Vec<LastHeard>, AllocError> {
    let mut others = Vec::with_capacity(alloc, count as usize)?;
    for before in 0..count {
        let member = before.saturating_add(1);
        if member != own {
            others.push(LastHeard {
                member,
                at: None,
                is_older: false,
            })?;
        }
    }
    Ok(others)
}

/// Whether so long passed since a moment, if there was one.
pub(crate) fn is_past(at: Option<u64>, span: u64, now: u64) -> bool
    ensures { result ≡ is_past at span now }
{
    match at {
        Some(at) => has_passed(at, span, now),
        None => true,
    }
}

/// Whether a member that was heard last at a moment, if it was, is silent for 10 seconds at another.
fn is_silent(at: Option<u64>, now: u64) -> bool
    ensures { result ≡ is_silent at now }
{
    is_past(at, SILENT, now)
}

/// A member is heard at a moment; whether it was silent before.
pub(crate) fn hear(others: &mut [LastHeard], member: Member, now: u64) -> bool {
    let member = member.get();
    let mut is_news = false;
    for other in others {
        if other.member == member {
            is_news = is_silent(other.at, now);
            other.at = Some(now);
        }
    }
    is_news
}

/// A packet of a member showed that its rows are of layout 1, or that they are not; whether the last one showed something else.
pub(crate) fn speak(others: &mut [LastHeard], member: Member, is_older: bool) -> bool {
    let member = member.get();
    let mut is_news = false;
    for other in others {
        if other.member == member {
            is_news = other.is_older != is_older;
            other.is_older = is_older;
        }
    }
    is_news
}
