//! What each recall and each roll begins with.

ghost use Rattle.std.specs.Prelude.{◌≡◌, ◌↔◌, IsSome, IfSome};
ghost use Rattle.recalls.specs.Tickets.{ticket_at};

use ballots::Member;
use std::marker::Model;

/// Who asks or answers whom, in which circuit: two members that differ. It has a number of the asker's, by which the asker knows what it
/// asked for; an answer repeats it. Clauses see the fields.
#[derive(Drop)]
pub struct Ticket {
    circuit: u16,
    from: Member,
    to: Member,
    asked: u32,
}

impl Model for Ticket {
    ghost use Rattle.std.specs.Prelude.{◌≡◌};
    ghost use Rattle.recalls.specs.Tickets.{Ticket as TicketValue};

    ghost Value = { TicketValue };

    ghost view = { λ h. record { circuit = h.circuit; from = h.from; to = h.to; asked = h.asked } };

    ghost invariant = { λ h. ¬ (h.from ≡ h.to) };
}

impl Ticket {
    /// A ticket; `None` where the two are one member.
    pub fn new(circuit: u16, from: Member, to: Member, asked: u32) -> Option<Ticket>
        ensures some { IsSome result ↔ (¬ (from ≡ to)) }
        ensures value { IfSome result (λ h. h ≡ record { circuit = circuit; from = from; to = to; asked = asked }) }
    {
        if from.get() == to.get() {
            return None;
        }
        Some(Ticket {
            circuit,
            from,
            to,
            asked,
        })
    }

    /// The ticket of these bytes; `None` where they are fewer than twelve, the sender or the addressee is no member, or they are one member.
    #[tactic(auto, unfolding(crate::specs::Tickets::ticket_at))]
    pub fn read(bytes: &[u8]) -> Option<Ticket>
        ensures { result ≡ ticket_at bytes.now }
    {
        if bytes.len() < 12 {
            return None;
        }
        let from = Member::new(bytes[6])?;
        let to = Member::new(bytes[7])?;
        let (_, circuit) = bytes.split_at(4);
        let (_, asked) = bytes.split_at(8);
        Ticket::new(
            u16::from_be_bytes([circuit[0], circuit[1]]),
            from,
            to,
            u32::from_be_bytes([asked[0], asked[1], asked[2], asked[3]]),
        )
    }

    /// The circuit's number.
    pub fn circuit(&self) -> u16
        ensures { result ≡ self.now.circuit }
    {
        self.circuit
    }

    /// The member that sends it.
    pub fn from(&self) -> Member
        ensures { result ≡ self.now.from }
    {
        self.from
    }

    /// The member that it is sent to, another one.
    pub fn to(&self) -> Member
        ensures value { result ≡ self.now.to }
        ensures apart { ¬ (self.now.from ≡ self.now.to) }
    {
        self.to
    }

    /// The number of the asker's.
    pub fn asked(&self) -> u32
        ensures { result ≡ self.now.asked }
    {
        self.asked
    }
}
