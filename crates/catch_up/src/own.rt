//! What is left to be done about the numbers that the station recalls.

ghost use Rattle.std.specs.Prelude.{◌≡◌, ◌≤◌, IfSome, None, []};
ghost use Rattle.catch_up.specs.Own.{GoesOn, IsFirstOther, IsGoingOn, IsOther, IsSending, NoneToAsk, asked_again, begun, left_by, recall_to};

use crate::errand::Errand;
use crate::values::{Values, copied, take_first, without};
use ballots::{Member, Number};
use gone_out::Origin;
use healing::Batch;
use recalls::{Recall, Ticket};
use std::alloc::{AllocError, Global};
use std::marker::Model;

/// Numbers that the station recalls: each other member is asked for them, and then the station tells itself its own votes of them.
#[derive(Drop)]
pub(crate) struct OwnRecalls {
    /// The station.
    origin: Origin,
    /// The number of the station's own that its recalls have.
    asked: u32,
    numbers: Values,
    /// The members below this one were asked.
    next: u8,
    /// The numbers that the station is still to tell itself.
    left: Values,
}

impl Model for OwnRecalls {
    ghost use Rattle.catch_up.specs.Own.{OwnValue, IsOwn};

    ghost Value = { OwnValue };

    ghost view = { λ v. record { origin = v.origin; asked = v.asked; numbers = v.numbers.items; next = v.next; left = v.left.items } };

    ghost invariant = { λ v. IsOwn (record { origin = v.origin; asked = v.asked; numbers = v.numbers.items; next = v.next; left = v.left.items }) };
}

/// The first member except the station itself from this one on.
fn other_from(origin: Origin, from: u8) -> Option<Member>
    requires { 1 ≤ from }
    ensures { IsFirstOther origin from result }
{
    let next = if from == origin.member.get() {
        from.saturating_add(1)
    } else {
        from
    };
    if next <= origin.count {
        Member::new(next)
    } else {
        None
    }
}

impl OwnRecalls {
    /// A batch is to be recalled.
    pub(crate) fn new(origin: Origin, asked: u32, batch: &Batch) -> OwnRecalls
        ensures { result ≡ begun origin asked batch.now }
    {
        OwnRecalls {
            origin,
            asked,
            numbers: copied(batch.numbers()),
            next: 1,
            left: copied(batch.numbers()),
        }
    }

    /// A batch that is recalled already is to be asked for once more.
    pub(crate) fn again(origin: Origin, asked: u32, batch: &Batch) -> OwnRecalls
        ensures { result ≡ asked_again origin asked batch.now }
    {
        OwnRecalls {
            origin,
            asked,
            numbers: copied(batch.numbers()),
            next: 1,
            left: copied(&[]),
        }
    }

    /// A number went out: it is recalled no longer.
    pub(crate) fn leave(&mut self, number: Number)
        ensures { self.new ≡ left_by number self.old }
    {
        let numbers = without(&self.numbers, number.get());
        self.numbers = numbers;
        let left = without(&self.left, number.get());
        self.left = left;
    }

    /// The recall to a member, if a number is left.
    fn recall_to(&self, to: Member) -> Option<Recall>
        requires { IsOther self.now.origin to }
        ensures some { IfSome result (λ r. r ≡ recall_to self.now to) }
        ensures none { result ≡ None → self.now.numbers ≡ [] }
    {
        let Origin {
            circuit,
            member,
            ..
        } = self.origin;
        let ticket = Ticket::new(circuit, member, to, self.asked)?;
        Recall::new(ticket, self.numbers.as_slice())
    }

    /// The next member is asked, if one is left and a number is.
    fn send(&mut self, alloc: Global) -> Result<Option<Errand>, AllocError>
        ensures { IsSending self.old self.new result }
    {
        let Some(to) = other_from(self.origin, self.next) else {
            return Ok(None);
        };
        let Some(recall) = self.recall_to(to) else {
            return Ok(None);
        };
        let bytes = recalls::encode(alloc, &recall)?;
        self.next = to.get() + 1;
        Ok(Some(Errand::Send { to, bytes }))
    }

    /// The next number is told to the station itself, if one is left.
    fn tell(&mut self) -> Option<Errand>
        requires { NoneToAsk self.old }
        ensures { GoesOn self.old self.new result }
    {
        match take_first(&mut self.left) {
            Some(number) => Some(Errand::Tell {
                number,
                to: self.origin.member,
            }),
            None => None,
        }
    }

    /// The next errand, if one is left. Where memory is refused, nothing has changed.
    pub(crate) fn next(&mut self, alloc: Global) -> Result<Option<Errand>, AllocError>
        ensures { IsGoingOn self.old self.new result }
    {
        match self.send(alloc)? {
            Some(errand) => Ok(Some(errand)),
            None => Ok(self.tell()),
        }
    }
}
