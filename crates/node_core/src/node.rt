//! The core of a station: all that it took in since its start, and the turn that it takes at each event.

ghost use Rattle.std.specs.Prelude.{◌≡◌, ◌≤◌, List, Err, IfOk, IfErr, IsSome, IfSome, true, length};
ghost use Rattle.protocol.specs.Marks.{Mark};
ghost use Rattle.protocol.specs.Limits.{most_sent};
ghost use Rattle.node_core.specs.Calls.{MaySit, IsNewCore, IsCleared, TellsMembers, TellsReleased, TellsOpenBallot, TellsNextDue, MayCome, TookTurn, Refuses, MayWantMemory};
ghost use Rattle.node_core.specs.Handling.{MayTakeTurn, MayAct, Acts, TakesTurn, SettlesNumber, KeepsInHand};
ghost use Rattle.node_core.specs.Standing.{StandsFor, IsInstanceOf, IsSameSeat, seat_of, instance_at};
ghost use Rattle.node_core.specs.Turns.{note_value, is_quiet, HandsNothing, sent};

use crate::event::Event;
use crate::instance::Instance;
use crate::instances::InstanceBox;
use crate::turn::{CoreRefusal, Turn};
use crate::{instances, voting};
use ballots::{Ballot, Member, Number, Row};
use packets::Seat;
use std::alloc::{AllocError, Global};
use std::collections::{BTreeMap, BTreeSet};
use std::marker::Model;

/// What a station took in since its start, of all numbers, and its seat.
///
/// Memory that was refused leaves it failed: nothing of it can be used then until it is cleared.
#[derive(Drop)]
pub struct NodeCore {
    alloc: Global,
    seat: Seat,
    failed: bool,
    instances: BTreeMap<u32, InstanceBox>,
    released: BTreeSet<u32>,
}

impl Model for NodeCore {
    ghost use Rattle.node_core.specs.Standing.{Core, AreInstancesOf};

    ghost Value = { Core };

    ghost view = { λ c. record {
      circuit = c.seat.circuit;
      me = c.seat.me;
      members = c.seat.members;
      failed = c.failed;
      instances = c.instances.entries;
      released = c.released.keys;
    } };

    ghost invariant = { λ c. AreInstancesOf c.seat c.instances.entries };
}

impl NodeCore {
    /// The core of a member of a circuit that just started.
    pub fn new(alloc: Global, circuit: u16, me: Member, members: u8) -> NodeCore
        requires { MaySit me members }
        ensures { IsNewCore circuit me members result }
    {
        NodeCore {
            alloc,
            seat: Seat::new(circuit, me, members),
            failed: false,
            instances: BTreeMap::new(alloc),
            released: BTreeSet::new(alloc),
        }
    }

    /// Forgets all that was taken in, as at a start.
    pub fn clear(&mut self)
        ensures { IsCleared self.old self.new }
    {
        self.failed = false;
        self.instances.clear();
        self.released.clear();
    }

    /// The circuit's number.
    pub fn circuit(&self) -> u16
        ensures { result ≡ self.now.circuit }
    {
        self.seat.circuit()
    }

    /// The member whose core it is.
    pub fn me(&self) -> Member
        ensures value { result ≡ self.now.me }
        ensures member { (1 ≤ self.now.me) × (self.now.me ≤ self.now.members) }
    {
        self.seat.me()
    }

    /// How many members the circuit has, 1 to 15.
    pub fn members(&self) -> u8
        ensures { TellsMembers self.now result }
    {
        self.seat.members()
    }

    /// Whether the number's entry was released since the start; `false` while the core is failed.
    pub fn released(&self, number: Number) -> bool
        ensures { TellsReleased number self.now result }
    {
        !self.failed && self.released.contains(&number.get())
    }

    /// The ballot of the number's open proposal, if there is one; `None` while the core is failed.
    pub fn open_ballot(&self, number: Number) -> Option<Ballot>
        ensures { TellsOpenBallot number self.now result }
    {
        if self.failed {
            return None;
        }
        match self.instances.get(&number.get()) {
            None => None,
            Some(boxed) => boxed.instance.open_ballot(),
        }
    }

    /// The least number whose proposal is due at this moment, in milliseconds, if there is one; `None` while the core
    /// is failed.
    pub fn next_due(&self, now: u64) -> Option<Number>
        ensures { TellsNextDue now self.now result }
    {
        if self.failed {
            return None;
        }
        protocol_laws::laws::next_due_is_least();
        instances::least_due(&self.instances, now)
    }

    /// Notes the number as released, where it is: nothing is in hand of it then.
    fn settle(&mut self, number: Number, is_released: bool) -> Result<(), AllocError>
        ensures { SettlesNumber number is_released result self.old self.new }
    {
        if is_released {
            instances::note(&mut self.released, number)?;
            instances::remove(&mut self.instances, number);
        }
        Ok(())
    }

    /// Keeps what is in hand of a number of which nothing was, if anything is.
    fn keep(&mut self, instance: Instance) -> Result<(), AllocError>
        requires new { instance_at self.old instance.number ≡ None }
        requires of { IsInstanceOf (seat_of self.old) instance }
        ensures { KeepsInHand instance result self.old self.new }
    {
        if instance.is_empty() {
            return Ok(());
        }
        instances::put(self.alloc, &mut self.instances, instance)
    }

    /// Takes an event of the number; where its entry is released now, that is still to be noted.
    fn act(&mut self, number: Number, event: Event<'_>, row: &Row) -> Result<Turn, CoreRefusal>
        requires { MayAct number event self.old }
        ensures { Acts number event.entry row.now result self.old self.new }
    {
        // Marks of one number change nothing that is read of another.
        learner::laws::other_marks_pass();
        proposer::laws::other_marks_pass();
        if let Some(boxed) = self.instances.get_mut(&number.get()) {
            return boxed.instance.handle(self.alloc, self.seat, event, row);
        }
        if self.released(number) {
            return voting::settled(self.alloc, self.seat, &event, row);
        }
        let mut instance = Instance::new(self.alloc, number, self.seat);
        let turn = instance.handle(self.alloc, self.seat, event, row)?;
        self.keep(instance)?;
        Ok(turn)
    }

    /// The turn of the event, or why there is none; memory that was refused may leave anything behind.
    fn run_turn(&mut self, event: Event<'_>, row: &Row) -> Result<Turn, CoreRefusal>
        requires { MayTakeTurn event self.old }
        ensures { TakesTurn event.entry row.now result self.old self.new }
    {
        let number = event.number();
        let turn = self.act(number, event, row)?;
        self.settle(number, turn.release.is_some())?;
        Ok(turn)
    }

    /// Takes the turn of the event, where `row` is the saved row of its number.
    ///
    /// `Failed` where memory was refused before and the core was not cleared since. To an offer or a search:
    /// `AlreadyReleased` and `AlreadyOpen` for a number that is, and `RoundsSpent` where there is no ballot above
    /// the row's promise. These change nothing. `OutOfMemory` leaves the core failed, and comes only where none of these
    /// does and the turn is not quiet: one that is `Silent`, `Stale`, `Repeated`, `Overtaken`, `Denied`, `Settled`, `Idle`
    /// or `Blank` takes no memory.
    /// A packet that comes has to be for this member, from a member of its circuit.
    pub fn handle(&mut self, event: Event<'_>, row: &Row) -> Result<Turn, CoreRefusal>
        requires arrived { MayCome self.old.me self.old.members event }
        ensures ok { IfOk result (λ x. (marks : List Mark) → StandsFor self.old marks → TookTurn self.old event.entry marks row.now x self.new) }
        ensures promised { IfOk result (λ x. IfSome x.row (λ r. IsSome r.promised)) }
        ensures few { IfOk result (λ x. length (sent row.now x) ≤ most_sent) }
        ensures quiet { IfOk result (λ x. is_quiet (note_value x.note) ≡ true → HandsNothing x) }
        ensures refused { IfErr result (λ e. Refuses e event.entry self.old row.now self.new) }
        ensures memory { IfErr result (λ e. MayWantMemory e self.old event.entry row.now) }
        ensures failed { self.old.failed ≡ true → result ≡ Err CoreRefusal.Failed }
        ensures seat { IsSameSeat self.old self.new }
    {
        if self.failed {
            return Err(CoreRefusal::Failed);
        }
        let answer = self.run_turn(event, row);
        if matches!(answer, Err(CoreRefusal::OutOfMemory)) {
            self.clear();
            self.failed = true;
        }
        answer
    }
}
