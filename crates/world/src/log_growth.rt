//! The logs of a world: they grow before a station is asked, and take in what it answers.

ghost use Rattle.std.specs.Prelude.{◌≡◌, ◌+◌, ◌<◌, ◌≤◌, ◌∷◌, [], ◌++◌, OnOk, IfErr, length, vec_len, vec_capacity};
ghost use Rattle.protocol.specs.Limits.{most_sent};
ghost use Rattle.world.specs.Taking.{was_taken};
ghost use Rattle.world.specs.Logging.{HasRoom, logged, offered_of, out_of, outcome_of, released_of, seen_of};
ghost use Rattle.world.specs.Worlds.{IsSame};

use crate::logs::{OfferLog, ReleaseLog};
use crate::step::{Outcome, Seen, WorldRefusal};
use crate::world::World;
use rows_saved::Rows;
use station::{Answer, Datagram, Release, StepRefusal};

/// The greatest number of datagrams that a station sends in one step.
const MOST: usize = 28;

/// Logs an item, for which there is room.
fn log<T: Drop>(items: &mut Vec<T>, item: T)
    requires { vec_len items.old < vec_capacity items.old }
    ensures { items.new.items ≡ items.old.items ++ item ∷ [] }
{
    match items.push(item) {
        Ok(()) => (),
        Err(_) => unreachable!(),
    }
}

/// Logs what goes out, for which there is room.
fn log_all(sent: &mut Vec<Datagram>, mut out: Vec<Datagram>)
    requires { vec_len sent.old + length out.items ≤ vec_capacity sent.old }
    ensures { sent.new.items ≡ sent.old.items ++ out.items }
{
    match sent.append(&mut out) {
        Ok(()) => (),
        Err(_) => unreachable!(),
    }
}

/// Logs what is released, for which there is room.
fn log_release(releases: &mut Vec<ReleaseLog>, member: u8, release: Option<Release>)
    requires { vec_len releases.old < vec_capacity releases.old }
    ensures { releases.new.items ≡ releases.old.items ++ logged member release }
{
    match release {
        None => (),
        Some(release) => log(
            releases,
            ReleaseLog::new(member, release.number.get(), release.entry, release.set),
        ),
    }
}

/// Whether an offer that ended so was taken up: it was done, or the store or want of memory ended it.
fn is_taken(step: &Result<Answer, StepRefusal>) -> bool
    ensures { result ≡ was_taken (outcome_of step.now) }
{
    match step {
        Ok(_) => true,
        Err(StepRefusal::Store(_)) => true,
        Err(StepRefusal::OutOfMemory) => true,
        Err(_) => false,
    }
}

/// Logs what was offered in a step that ended so, where it was taken up. There is room for it.
pub(crate) fn log_offer(
    offers: &mut Vec<OfferLog>,
    offer: Option<OfferLog>,
    step: &Result<Answer, StepRefusal>,
)
    requires { vec_len offers.old < vec_capacity offers.old }
    ensures { offers.new.items ≡ offers.old.items ++ offered_of offer (outcome_of step.now) }
{
    let Some(offer) = offer else {
        return;
    };
    if is_taken(step) {
        log(offers, offer);
    }
}

impl<R: Rows> World<R> {
    /// Makes room in the logs for what one step may add.
    pub(crate) fn make_room(&mut self) -> Result<(), WorldRefusal>
        ensures same { IsSame self.old self.new }
        ensures room { OnOk result (HasRoom self.new) }
        ensures refused { IfErr result (λ r. r ≡ WorldRefusal.OutOfMemory) }
    {
        let Ok(()) = self.sent.reserve(MOST) else {
            return Err(WorldRefusal::OutOfMemory);
        };
        let Ok(()) = self.offers.reserve(1) else {
            return Err(WorldRefusal::OutOfMemory);
        };
        let Ok(()) = self.releases.reserve(1) else {
            return Err(WorldRefusal::OutOfMemory);
        };
        Ok(())
    }

    /// Logs what a station answered. There is room for it.
    pub(crate) fn log_answer(&mut self, member: u8, step: Result<Answer, StepRefusal>) -> Seen
        requires sent { vec_len self.old.sent + most_sent ≤ vec_capacity self.old.sent }
        requires releases { vec_len self.old.releases < vec_capacity self.old.releases }
        requires few { length (out_of step) ≤ most_sent }
        ensures stations { self.new.stations ≡ self.old.stations }
        ensures sent { self.new.sent.items ≡ self.old.sent.items ++ out_of step }
        ensures offers { self.new.offers ≡ self.old.offers }
        ensures releases { self.new.releases.items ≡ self.old.releases.items ++ released_of member step }
        ensures seen { result ≡ seen_of member (length self.old.sent.items) step }
    {
        let first = self.sent.len() + 1;
        match step {
            Ok(answer) => {
                let count = answer.out.len();
                let released = answer.release.is_some();
                log_all(&mut self.sent, answer.out);
                log_release(&mut self.releases, member, answer.release);
                Seen {
                    member,
                    first,
                    count,
                    released,
                    outcome: Outcome::Done(answer.note),
                }
            }
            Err(refusal) => Seen {
                member,
                first,
                count: 0,
                released: false,
                outcome: Outcome::Refused(refusal),
            },
        }
    }
}
