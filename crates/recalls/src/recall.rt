//! A recall: whose votes for which numbers are to be told again.

ghost use Rattle.std.specs.Prelude.{◌≡◌, ◌↔◌, IsSome, IfSome, IsTrue};
ghost use Rattle.recalls.specs.Recalls.{Rise, AreRecalled, ticket_of, recall_of};

use crate::ticket::Ticket;
use arrayvec::ArrayVec;
use std::marker::Model;

/// The most numbers of a recall.
pub const MOST_RECALLED: usize = 64;

/// Numbers that rise.
pub(crate) type RisingNumbers = ArrayVec<u32, MOST_RECALLED>;

/// What a member asks another one to tell again: its votes for 1 to 64 numbers, each 1 to 999,999 and above the one before it. Clauses
/// see the fields, those of the ticket among them.
#[derive(Drop)]
pub struct Recall {
    pub(crate) ticket: Ticket,
    pub(crate) numbers: RisingNumbers,
}

impl Model for Recall {
    ghost use Rattle.recalls.specs.Recalls.{Recall as RecallValue, recall_of, AreRecalled};

    ghost Value = { RecallValue };

    ghost view = { λ r. recall_of r.ticket r.numbers.items };

    ghost invariant = { λ r. AreRecalled r.numbers.items };
}

/// Whether these numbers may be recalled: each is 1 to 999,999 and above the one before it.
fn do_rise(numbers: &[u32]) -> bool
    ensures { IsTrue result ↔ Rise 0 numbers.now }
{
    let mut above = 0;
    for number in numbers {
        if *number <= above || *number > 999_999 {
            return false;
        }
        above = *number;
    }
    true
}

impl Recall {
    /// A recall of these numbers; `None` where they are none, more than 64, or do not rise from 1 on.
    pub fn new(ticket: Ticket, numbers: &[u32]) -> Option<Recall>
        ensures some { IsSome result ↔ AreRecalled numbers.now }
        ensures value { IfSome result (λ r. r ≡ recall_of ticket numbers.now) }
    {
        if numbers.is_empty() || !do_rise(numbers) {
            return None;
        }
        let mut copy = ArrayVec::new();
        copy.try_extend_from_slice(numbers).ok()?;
        Some(Recall {
            ticket,
            numbers: copy,
        })
    }

    /// Who asks whom.
    pub fn ticket(&self) -> &Ticket
        ensures { result.now ≡ ticket_of self.now }
    {
        &self.ticket
    }

    /// The numbers, rising.
    pub fn numbers(&self) -> &[u32]
        ensures value { result.now ≡ self.now.numbers }
        ensures recalled { AreRecalled self.now.numbers }
    {
        self.numbers.as_slice()
    }
}
