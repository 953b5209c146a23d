//! The steps of a world, one function for each kind.

ghost use Rattle.std.specs.Prelude.{◌≡◌, ◌<◌, ◌≤◌, ◌+◌, suc, false, Some, None, IfOk, IfErr, OnOk, OnErr, length, option_map};
ghost use Rattle.protocol.specs.Circuit.{datagram_at, member_missing};
ghost use Rattle.world.specs.Reach.{Stepped, WorldRun, WorldStep};
ghost use Rattle.world.specs.Taking.{Found, step_of};
ghost use Rattle.world.specs.Worlds.{count_of};

use crate::call::MemberCall;
use crate::laws;
use crate::log_growth::log_offer;
use crate::step::{Outcome, RunStop, Seen, Step, WorldRefusal};
use crate::upgrade::upgrade_station;
use crate::world::World;
use line_check::laws::one_setting;
use rows_saved::Rows;
use station::Datagram;

/// The member that a datagram goes to.
fn addressee_of(datagram: &Datagram) -> u8
    ensures { result ≡ datagram.now.to }
{
    datagram.to().get()
}

impl<R: Rows> World<R> {
    /// Takes one step. What the step did is logged, and what was logged is told.
    ///
    /// Refused as `NoSuchMember`, `NoSuchDatagram` or `OutOfMemory`, each of which changes nothing: the logs grow
    /// before the station is asked. That a station refuses a step is an outcome, also where its store or its memory does.
    /// A fault of its store is that of the member's own rows; an armed store tells its refusal as [`rows_saved::RowsFault::Store`].
    pub fn step(&mut self, step: &Step) -> Result<Seen, WorldRefusal>
        ensures { WorldStep R.Rows step.now self.old self.new result }
    {
        laws::agreement();
        match step {
            Step::Offer {
                member,
                number,
                tape,
                now,
            } => self.ask(*member, MemberCall::Offer(*number, tape, *now)),
            Step::Withdraw {
                member,
                number,
                now,
            } => self.ask(*member, MemberCall::Withdraw(*number, *now)),
            Step::Seek {
                member,
                number,
                now,
            } => self.ask(*member, MemberCall::Seek(*number, *now)),
            Step::Due { member, now } => self.ask(*member, MemberCall::Due(*now)),
            Step::Deliver { k, now } => self.deliver(*k, *now),
            Step::Restart { member } => self.restart(*member),
            Step::Upgrade { member } => self.upgrade(*member),
            Step::Balk { member, saved } => self.balk(*member, *saved),
            Step::Recall { member, number, to } => self.ask(
                *member,
                MemberCall::Recall(*number, *to),
            ),
        }
    }

    /// Takes steps in order, up to the first that is refused. The steps before it stand.
    pub fn run(&mut self, steps: &[Step]) -> Result<(), RunStop>
        ensures { WorldRun R.Rows steps.now self.old self.new result }
    {
        laws::agreement();
        for (at, step) in steps.iter().enumerate() {
            if let Err(refusal) = self.step(step) {
                return Err(RunStop { at, refusal });
            }
        }
        Ok(())
    }

    /// The place of a member in the list of stations.
    fn place(&self, member: u8) -> Result<usize, WorldRefusal>
        ensures place { IfOk result (λ i. suc i ≡ member) }
        ensures within { IfOk result (λ i. i < count_of self.now) }
        ensures found { Found (member_missing (count_of self.now) member) result }
    {
        let member = usize::from(member);
        if member < 1 || self.stations.len() < member {
            return Err(WorldRefusal::NoSuchMember);
        }
        Ok(member - 1)
    }

    /// The addressee of a datagram.
    fn addressee(&self, k: usize) -> Result<u8, WorldRefusal>
        ensures low { OnOk result (1 ≤ k) }
        ensures high { OnOk result (k ≤ length self.now.sent.items) }
        ensures found { IfOk result (λ m. option_map (λ d. d.to) (datagram_at self.now.sent.items k) ≡ Some m) }
        ensures unsent { OnErr result (datagram_at self.now.sent.items k ≡ None) }
        ensures refused { IfErr result (λ r. r ≡ WorldRefusal.NoSuchDatagram) }
    {
        if k < 1 || self.sent.len() < k {
            return Err(WorldRefusal::NoSuchDatagram);
        }
        Ok(addressee_of(&self.sent[k - 1]))
    }

    /// A member is asked, and what it answers is logged.
    fn ask(&mut self, member: u8, call: MemberCall<'_>) -> Result<Seen, WorldRefusal>
        ensures { Stepped R.Rows (step_of member call.entry) self.old self.new result }
    {
        one_setting();
        let place = self.place(member)?;
        let Ok(offer) = call.offer(member) else {
            return Err(WorldRefusal::OutOfMemory);
        };
        self.make_room()?;
        let answer = call.ask(&mut self.stations[place]);
        log_offer(&mut self.offers, offer, &answer);
        Ok(self.log_answer(member, answer))
    }

    /// A datagram comes to its addressee.
    fn deliver(&mut self, k: usize, now: u64) -> Result<Seen, WorldRefusal>
        ensures { Stepped R.Rows (Step.Deliver k now) self.old self.new result }
    {
        one_setting();
        let member = self.addressee(k)?;
        let place = self.place(member)?;
        self.make_room()?;
        let datagram = &self.sent[k - 1];
        let step = self.stations[place].receive(datagram.bytes(), now);
        Ok(self.log_answer(member, step))
    }

    /// A member starts again.
    fn restart(&mut self, member: u8) -> Result<Seen, WorldRefusal>
        ensures { Stepped R.Rows (Step.Restart member) self.old self.new result }
    {
        let place = self.place(member)?;
        self.stations[place].restart();
        Ok(self.unsent(member, Outcome::Restarted))
    }

    /// A member goes over to version 2. Nothing is sent or logged, and no memory is taken.
    fn upgrade(&mut self, member: u8) -> Result<Seen, WorldRefusal>
        ensures { Stepped R.Rows (Step.Upgrade member) self.old self.new result }
    {
        let place = self.place(member)?;
        let outcome = upgrade_station(&mut self.stations[place]);
        Ok(self.unsent(member, outcome))
    }

    /// A member's store is armed to refuse a save or an upgrade.
    fn balk(&mut self, member: u8, saved: bool) -> Result<Seen, WorldRefusal>
        ensures { Stepped R.Rows (Step.Balk member saved) self.old self.new result }
    {
        let place = self.place(member)?;
        self.stations[place].rows_mut().arm(saved);
        Ok(self.unsent(member, Outcome::Armed { saved }))
    }

    /// What is seen of a step that sent nothing.
    fn unsent(&self, member: u8, outcome: Outcome) -> Seen
        ensures { result ≡ record { member = member; first = length self.now.sent.items + 1; count = 0; released = false; outcome = outcome } }
    {
        Seen {
            member,
            first: self.sent.len() + 1,
            count: 0,
            released: false,
            outcome,
        }
    }
}
