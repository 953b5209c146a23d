//! A roll: what one station asks another about the numbers that have a vote there, or what it answers.

ghost use Rattle.std.specs.Prelude.{◌≡◌};
ghost use Rattle.rolls.specs.Rolls.{ticket_of, roll_of};
ghost use Rattle.rolls.specs.Bodies.{said};

use crate::body::RollBody;
use recalls::Ticket;
use std::marker::Model;

/// What a member asks another one about the numbers that have a vote there, or what it answers. Clauses see the fields, those of the
/// ticket among them.
#[derive(Drop)]
pub struct Roll {
    pub(crate) ticket: Ticket,
    pub(crate) body: RollBody,
}

impl Model for Roll {
    ghost use Rattle.rolls.specs.Rolls.{Roll as RollValue, roll_of};
    ghost use Rattle.rolls.specs.Bodies.{said};

    ghost Value = { RollValue };

    ghost view = { λ r. roll_of r.ticket (said r.body) };
}

impl Roll {
    /// A roll that says this.
    pub fn new(ticket: Ticket, body: RollBody) -> Roll
        ensures { result ≡ roll_of ticket (said body) }
    {
        Roll { ticket, body }
    }

    /// Who asks or answers whom.
    pub fn ticket(&self) -> &Ticket
        ensures { result.now ≡ ticket_of self.now }
    {
        &self.ticket
    }

    /// What it says.
    pub fn body(&self) -> &RollBody
        ensures { said result.now ≡ self.now.body }
    {
        &self.body
    }
}
