//! What is told of the datagrams that come to a station: those of strangers, such as found no place in memory, and those of layout 2 where its
//! rows are of layout 1. That the writer fails is ignored.

ghost use Rattle.std.specs.Prelude.{◌≡◌, ◌↔◌, IsTrue, IsSome, None, Some, []};
ghost use Rattle.wire.specs.Passing.{Passes};
ghost use Rattle.driver.specs.Layouts.{IsNewerIn, IsTime, newer_text};

use crate::said::said_in;
use ballots::Member;
use packets::PacketFault;
use station::StepRefusal;
use std::fmt;
use std::io::Write;
use std::marker::Model;
use wire::Wire;

/// The least pause between two lines of layout 2, in milliseconds: a minute.
const PAUSE: u64 = 60_000;

/// Tells the datagrams of strangers, where the wire has such to tell at this moment.
pub(crate) fn tell_strangers<N: Wire, E: Write>(wire: &mut N, now: u64, err: &mut E)
    ensures { Passes (N.passed wire.old) (N.passed wire.new) [] }
{
    if let Some(strangers) = wire.strangers(now) {
        let _ = writeln!(err, "socket: {strangers}");
    }
}

/// Tells how many datagrams of stations found no place in memory, where the wire has such to tell at this moment.
pub(crate) fn tell_lost<N: Wire, E: Write>(wire: &mut N, now: u64, err: &mut E)
    ensures { Passes (N.passed wire.old) (N.passed wire.new) [] }
{
    if let Some(lost) = wire.lost(now) {
        let _ = writeln!(err, "socket: {lost} datagrams found no place in memory");
    }
}

/// The member that sent these bytes, as they say, where they are of layout 2 and were refused by a station that reads layout 1 alone.
pub(crate) fn newer_in(refusal: StepRefusal, bytes: &[u8]) -> Option<Member>
    ensures { IsNewerIn refusal bytes.now result }
{
    if refusal != StepRefusal::BadDatagram(PacketFault::BadVersion) {
        return None;
    }
    match said_in(bytes) {
        Some(said) => Some(said.sender),
        None => None,
    }
}

/// The line that tells a datagram of this member.
#[derive(Clone, Copy)]
struct NewerText(Member);

impl fmt::Display for NewerText {
    ghost output = { λ t. Some (newer_text t.0) };

    fn fmt<W: fmt::Write>(&self, f: &mut fmt::Formatter<W>) -> fmt::Result {
        let member = self.0.get();
        write!(
            f,
            "bad-version from member {member}: its rows are of layout 2, these of layout 1"
        )
    }
}

/// When it was told last that a datagram of layout 2 came to rows of layout 1, in milliseconds. Clauses see that moment.
#[derive(Drop)]
pub struct NewerLayouts {
    told: Option<u64>,
}

impl Model for NewerLayouts {
    ghost use Rattle.std.specs.Prelude.{ℕ, Option};

    ghost Value = { Option ℕ };

    ghost view = { λ n. n.told };
}

/// Whether it is time to tell one at a moment in milliseconds, where the last was told at this one.
fn is_time(told: Option<u64>, now: u64) -> bool
    ensures { IsTrue result ↔ IsTime told now }
{
    match told {
        Some(told) => match told.checked_add(PAUSE) {
            Some(end) => end <= now,
            None => false,
        },
        None => true,
    }
}

impl NewerLayouts {
    /// None was told yet.
    pub fn new() -> NewerLayouts
        ensures { result ≡ None }
    {
        NewerLayouts { told: None }
    }

    /// Tells a datagram of this member, if there is one, at a moment in milliseconds: once a minute at most, whichever member sends. That the
    /// writer fails is ignored.
    pub fn tell<E: Write>(&mut self, newer: Option<Member>, now: u64, err: &mut E)
        ensures none { newer ≡ None → self.new ≡ self.old }
        ensures early { ¬ IsTime self.old now → self.new ≡ self.old }
        ensures told { IsSome newer → IsTime self.old now → self.new ≡ Some now }
    {
        let Some(member) = newer else {
            return;
        };
        if is_time(self.told, now) {
            self.told = Some(now);
            let _ = writeln!(err, "{}", NewerText(member));
        }
    }
}
