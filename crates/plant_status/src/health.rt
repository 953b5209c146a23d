//! Whether a station is well.

ghost use Rattle.std.specs.Prelude.{◌≡◌, ◌<◌, ◌&&◌, ◌||◌, count_by, nat_le, nat_lt, length, not};
ghost use Rattle.plant_status.specs.Judging.{is_alone, is_long_missing, is_recent, is_well};

use crate::ages::Ages;

/// From how many seconds on a status is too old.
pub const OLD: u64 = 90;

/// For how many seconds a majority may be unheard.
pub const LONG_UNHEARD: u64 = 180;

/// For how many seconds something may be missing.
pub const LONG_MISSING: u64 = 60;

/// What is not well with a station.
#[derive(Clone, Copy)]
pub struct Health {
    /// Its status is older than 90 seconds.
    pub is_old: bool,
    /// It has heard no majority of its circuit for more than 180 seconds, itself counted.
    pub is_alone: bool,
    /// Something is missing there for more than 60 seconds.
    pub is_missing: bool,
}

impl Health {
    /// Whether nothing is.
    pub fn is_well(&self) -> bool
        ensures { result ≡ is_well self.now }
    {
        !(self.is_old || (self.is_alone || self.is_missing))
    }
}

/// Whether a member that was heard so many seconds ago was heard of late.
fn is_recent(heard: u64) -> bool
    ensures { result ≡ is_recent heard }
{
    heard <= LONG_UNHEARD
}

/// How many members were heard of late.
fn recent(heard: &[u64]) -> usize
    ensures { result ≡ count_by is_recent heard.now }
{
    let mut count = 0;
    for ago in heard {
        if is_recent(*ago) {
            count += 1;
        }
    }
    count
}

/// Whether no majority was heard of late: of the others, heard so many seconds ago, and of the station itself.
fn is_alone(heard: &[u64]) -> bool
    ensures { result ≡ is_alone heard.now }
{
    let others = heard.len();
    let silent = others.saturating_sub(recent(heard));
    silent > others / 2
}

/// Whether something is missing for too long, where something is missing for so many seconds.
fn is_long_missing(missing: Option<u64>) -> bool
    ensures { result ≡ is_long_missing missing }
{
    match missing {
        Some(ago) => ago > LONG_MISSING,
        None => false,
    }
}

/// What is not well with a station, by how long ago things were there. Whom it heard is judged where that is asked for: a station that asks
/// nothing of the others may hear nobody for long.
pub fn health_of(ages: &Ages, judges_hearing: bool) -> Health
    ensures old { result.is_old ≡ nat_lt 90 ages.now.written }
    ensures alone { result.is_alone ≡ (judges_hearing && is_alone ages.now.heard.items) }
    ensures missing { result.is_missing ≡ is_long_missing ages.now.missing }
{
    Health {
        is_old: ages.written > OLD,
        is_alone: judges_hearing && is_alone(ages.heard.as_slice()),
        is_missing: is_long_missing(ages.missing),
    }
}
