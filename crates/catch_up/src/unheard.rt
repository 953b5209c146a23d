//! Why a recall or a roll that came is passed over.

ghost use Rattle.std.specs.Prelude.{◌≡◌};
ghost use Rattle.catch_up.specs.Unheard.{checked, fault_text, roll_fault_text, text_of};

use gone_out::Origin;
use recalls::{RecallFault, Ticket};
use rolls::RollFault;

/// Why a recall or a roll that came is passed over; in this order.
#[derive(Clone, Copy, PartialEq, Eq)]
pub enum Unheard {
    /// The bytes are no recall, by their first fault.
    Bad(RecallFault),
    /// The bytes are no roll, by their first fault.
    BadRoll(RollFault),
    /// It has another circuit's number.
    WrongCircuit,
    /// It is to another member.
    NotForMe,
    /// Its sender is above the count of members.
    Stranger,
}

fn fault_text(fault: RecallFault) -> &'static str
    ensures { result.now ≡ fault_text fault }
{
    match fault {
        RecallFault::Short => "short",
        RecallFault::BadMark => "bad-mark",
        RecallFault::BadVersion => "bad-version",
        RecallFault::BadKind => "bad-kind",
        RecallFault::BadMember => "bad-member",
        RecallFault::BadCount => "bad-count",
        RecallFault::BadNumber => "bad-number",
        RecallFault::BadOrder => "bad-order",
        RecallFault::Long => "long",
    }
}

fn roll_fault_text(fault: RollFault) -> &'static str
    ensures { result.now ≡ roll_fault_text fault }
{
    match fault {
        RollFault::Short => "short",
        RollFault::BadMark => "bad-mark",
        RollFault::BadVersion => "bad-version",
        RollFault::BadKind => "bad-kind",
        RollFault::BadMember => "bad-member",
        RollFault::BadPage => "bad-page",
        RollFault::BadPad => "bad-pad",
        RollFault::BadCount => "bad-count",
        RollFault::BadBits => "bad-bits",
        RollFault::Long => "long",
    }
}

impl Unheard {
    /// The text that stands for it.
    pub fn text(self) -> &'static str
        ensures { result.now ≡ text_of self }
    {
        match self {
            Unheard::Bad(fault) => fault_text(fault),
            Unheard::BadRoll(fault) => roll_fault_text(fault),
            Unheard::WrongCircuit => "wrong-circuit",
            Unheard::NotForMe => "not-for-me",
            Unheard::Stranger => "stranger",
        }
    }
}

/// Whether what came is of this circuit, to this station, from a member, by its ticket.
pub(crate) fn check(own: Origin, ticket: &Ticket) -> Result<(), Unheard>
    ensures checked { result ≡ checked own ticket.now }
    ensures apart { ¬ (ticket.now.from ≡ ticket.now.to) }
{
    let to = ticket.to().get();
    if ticket.circuit() != own.circuit {
        return Err(Unheard::WrongCircuit);
    }
    if to != own.member.get() {
        return Err(Unheard::NotForMe);
    }
    if ticket.from().get() > own.count {
        return Err(Unheard::Stranger);
    }
    Ok(())
}
