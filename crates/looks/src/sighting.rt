//! What is known of a file whose name asks for nothing.

ghost use Rattle.std.specs.Prelude.{◌≡◌};
ghost use Rattle.looks.specs.Sightings.{anew, is_ripe, is_to_be_told, is_told, moved, put_off, sighted, was_told};

use folders::{FolderFault, LAST_PAUSE, Stamp, has_passed, is_unchanged};

/// After which time a fault that goes on is told again, in milliseconds.
const AGAIN: u64 = 3_600_000;

/// What is known of such a file. Moments are in milliseconds.
#[derive(Clone, Copy)]
pub struct Sighting {
    /// As it was found last.
    pub stamp: Stamp,
    /// The first look of those that found it so, one after the other up to the last.
    since: u64,
    /// From which moment on it is moved; none once it was.
    from: Option<u64>,
    /// Why it was not moved, as it was told last, and when that was.
    told: Option<(FolderFault, u64)>,
}

/// Such a file.
#[derive(Drop)]
pub struct Stray {
    pub name: String,
    pub sighting: Sighting,
}

/// Whether a fault is one that is told: not of a file that is gone, or another by now.
fn is_told(fault: FolderFault) -> bool
    ensures { result ≡ is_told fault }
{
    !matches!(fault, FolderFault::Missing | FolderFault::Changed)
}

/// Whether this was told last, and less than an hour ago.
fn was_told(told: Option<(FolderFault, u64)>, fault: FolderFault, now: u64) -> bool
    ensures { result ≡ was_told told fault now }
{
    match told {
        Some((last, moment)) => last.word() == fault.word() && !has_passed(moment, AGAIN, now),
        None => false,
    }
}

impl Sighting {
    /// A file that is found with this stamp at a moment for the first time.
    fn anew(stamp: Stamp, now: u64) -> Sighting
        ensures { result ≡ anew stamp now }
    {
        Sighting {
            stamp,
            since: now,
            from: Some(0),
            told: None,
        }
    }

    /// A file that is found with this stamp at a moment, of which this was known, if anything was.
    pub(crate) fn after(known: Option<Sighting>, stamp: Stamp, now: u64) -> Sighting
        ensures { result ≡ sighted known stamp now }
    {
        match known {
            Some(known) if is_unchanged(known.stamp, stamp) => known,
            _ => Sighting::anew(stamp, now),
        }
    }

    /// Whether it is moved, where it has to stay so long as it is, and that was the last look.
    pub(crate) fn is_ripe(self, still: u64, looked: u64) -> bool
        ensures { result ≡ is_ripe still looked self }
    {
        match self.from {
            Some(from) => has_passed(self.since, still, looked) && from <= looked,
            None => false,
        }
    }

    /// Whether it is told at a moment that the file can't be moved for this fault: not the same again within an hour, and not of a file that
    /// is gone, or another by now.
    pub fn is_to_be_told(self, fault: FolderFault, now: u64) -> bool
        ensures { result ≡ is_to_be_told self fault now }
    {
        is_told(fault) && !was_told(self.told, fault, now)
    }

    /// It was moved.
    pub(crate) fn moved(self) -> Sighting
        ensures { result ≡ moved self }
    {
        Sighting { from: None, ..self }
    }

    /// It could not be moved at a moment, for this fault, which was told where it is to be.
    pub(crate) fn put_off(self, fault: FolderFault, now: u64) -> Sighting
        ensures { result ≡ put_off fault now self }
    {
        let told = if self.is_to_be_told(fault, now) {
            Some((fault, now))
        } else {
            self.told
        };
        Sighting {
            from: Some(now.saturating_add(LAST_PAUSE)),
            told,
            ..self
        }
    }
}
