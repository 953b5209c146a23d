//! How long ago things were, of which a status tells.

use crate::moment::Moment;
use crate::status::{HeardMember, Missing, Status};
use std::alloc::{AllocError, Global};

/// How long ago things were, in seconds.
#[derive(Drop)]
pub struct Ages {
    /// When the status was written.
    pub written: u64,
    /// When each other member was heard; the start, where it was not heard since.
    pub heard: Vec<u64>,
    /// Since when something is missing, where something is.
    pub missing: Option<u64>,
}

/// How long ago a moment was, at so many seconds after 1970 began; 0 where it is still to come.
fn ago(moment: &Moment, now: u64) -> Option<u64> {
    Some(now.saturating_sub(moment.seconds()?))
}

/// How long ago members were heard, by a station that is up since a moment; nothing where no calendar has a moment of them.
fn all_heard(
    alloc: Global,
    members: &[HeardMember],
    since: Moment,
    now: u64,
) -> Result<Option<Vec<u64>>, AllocError> {
    let mut all = Vec::new(alloc);
    for heard in members {
        let Some(ago) = ago(&heard.at.unwrap_or(since), now) else {
            return Ok(None);
        };
        all.push(ago)?;
    }
    Ok(Some(all))
}

/// How long something is missing, where something is; nothing where no calendar has the moment.
fn missing_for(missing: &Option<Missing>, now: u64) -> Option<Option<u64>> {
    match missing {
        Some(missing) => Some(Some(ago(&missing.since, now)?)),
        None => Some(None),
    }
}

/// How long ago things were of which a status tells, at so many seconds after 1970 began; `None` where it names a moment that no calendar
/// has. When it was written is as far from now as it is, to either side.
///
/// # Errors
///
/// Out of memory.
pub fn ages_of(alloc: Global, status: &Status, now: u64) -> Result<Option<Ages>, AllocError> {
    let (Some(written), Some(missing)) = (
        status.written.seconds(),
        missing_for(&status.missing, now),
    ) else {
        return Ok(None);
    };
    let Some(heard) = all_heard(alloc, status.members.as_slice(), status.since, now)? else {
        return Ok(None);
    };
    Ok(Some(Ages {
        written: now.abs_diff(written),
        heard,
        missing,
    }))
}
