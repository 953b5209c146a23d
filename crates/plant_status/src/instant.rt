//! The moments of a status, as a calendar tells them.

use crate::last_heard::LastHeard;
use crate::moment::Moment;
use crate::status::HeardMember;
use std::alloc::{AllocError, Global};

/// A moment of the station, in milliseconds, beside how many seconds ago 1970 began.
#[derive(Clone, Copy)]
pub(crate) struct Instant {
    pub(crate) now: u64,
    pub(crate) seconds: u64,
}

impl Instant {
    /// A moment of the station that was before.
    pub(crate) fn moment(&self, at: u64) -> Option<Moment> {
        let ago = self.now.saturating_sub(at) / 1000;
        Moment::at(self.seconds.saturating_sub(ago))
    }

    /// When a member was heard.
    fn heard(&self, heard: &LastHeard) -> HeardMember {
        let at = match heard.at {
            Some(at) => self.moment(at),
            None => None,
        };
        HeardMember {
            member: heard.member,
            at,
            is_older: heard.is_older,
        }
    }

    /// When each member was heard.
    pub(crate) fn all_heard(
        &self,
        alloc: Global,
        others: &[LastHeard],
    ) -> Result<Vec<HeardMember>, AllocError> {
        let mut all = Vec::with_capacity(alloc, others.len())?;
        for heard in others {
            all.push(self.heard(heard))?;
        }
        Ok(all)
    }
}
