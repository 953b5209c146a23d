//! Datagrams that are not admitted, counted for each reason and told now and then.

ghost use Rattle.std.specs.Prelude.{◌≡◌, ◌<◌, IfSome, length, position, replicate};
ghost use Rattle.wire.specs.Strangers.{TellsFirst, counted, is_due, nothing_kept, told_at, with_counted};

use crate::reason::Reason;
use std::fmt;
use std::net::SocketAddr;

/// How long it is at least from one telling to the next, in milliseconds.
pub(crate) const PAUSE: u64 = 1000;

/// How many reasons there are.
const REASONS: usize = 8;

/// Datagrams that are not admitted, for one reason.
#[derive(Clone, Copy)]
pub struct Strangers {
    /// Why they are not admitted.
    pub reason: Reason,
    /// How many came since the last telling, or as many as there are numbers for.
    pub count: u64,
    /// From where the last of them came.
    pub last: SocketAddr,
}

/// What a person reads of them.
impl fmt::Display for Strangers {
    fn fmt<W: fmt::Write>(&self, f: &mut fmt::Formatter<W>) -> fmt::Result {
        let (reason, count, last) = (self.reason, self.count, self.last);
        write!(f, "{count} datagrams {reason}, last from {last}")
    }
}

/// What is not told yet of one reason, and the moment before which it is not told.
#[derive(Clone, Copy)]
pub(crate) struct ReasonTally {
    pub(crate) kept: Option<Strangers>,
    pub(crate) due: u64,
}

impl ReasonTally {
    /// Counts a datagram.
    fn add(&mut self, reason: Reason, sender: SocketAddr)
        ensures { self.new ≡ counted reason sender self.old }
    {
        let count = match self.kept {
            Some(strangers) => strangers.count.saturating_add(1),
            None => 1,
        };
        self.kept = Some(Strangers {
            reason,
            count,
            last: sender,
        });
    }

    /// Whether there is something to tell at this moment: some are not told yet, and the last telling was a second ago at least.
    fn is_due(&self, now: u64) -> bool
        ensures { result ≡ is_due now self.now }
    {
        self.due <= now && self.kept.is_some()
    }

    /// Tells those that came since the last telling, and the next not within a second.
    fn take(&mut self, now: u64) -> Option<Strangers>
        ensures told { result ≡ self.old.kept }
        ensures after { self.new ≡ told_at now }
    {
        let told = self.kept;
        self.kept = None;
        self.due = now.saturating_add(PAUSE);
        told
    }
}

/// The first place of which there is something to tell at this moment.
fn first_due(tallies: &[ReasonTally], now: u64) -> Option<usize>
    ensures place { result ≡ position (is_due now) tallies.now }
    ensures within { IfSome result (λ place. place < length tallies.now) }
{
    tallies.iter().position(|tally| tally.is_due(now))
}

/// What is not told yet, of each reason.
#[derive(Clone, Copy)]
pub(crate) struct Untold {
    pub(crate) tallies: [ReasonTally; REASONS],
}

impl Untold {
    /// Nothing to tell, and from the start on.
    pub(crate) fn new() -> Untold
        ensures { result.tallies ≡ replicate 8 nothing_kept }
    {
        Untold {
            tallies: [ReasonTally { kept: None, due: 0 }; REASONS],
        }
    }

    /// Counts a datagram that is not admitted for this reason.
    pub(crate) fn add(&mut self, reason: Reason, sender: SocketAddr)
        ensures { self.new.tallies ≡ with_counted reason sender self.old.tallies }
    {
        self.tallies[reason as usize].add(reason, sender);
    }

    /// Tells those of the first reason of which there are such to tell: not told yet, and the last telling of that reason was a second
    /// ago at least.
    pub(crate) fn tell(&mut self, now: u64) -> Option<Strangers>
        ensures { TellsFirst now result self.old.tallies self.new.tallies }
    {
        let place = first_due(&self.tallies, now)?;
        self.tallies[place].take(now)
    }
}
