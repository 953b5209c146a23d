//! The packets of a letter, each at its place.

ghost use Rattle.std.specs.Prelude.{◌≡◌, ℕ, ◌≤◌, ◌<◌, ◌+◌, ◌∷◌, [], Some, IsTrue, length, slice_get};
ghost use Rattle.protocol.specs.Entries.{Entry};
ghost use Rattle.protocol.specs.Packets.{Accepted};
ghost use Rattle.protocol.specs.Turn.{packet_to, to_others, proposal_to_others, others};
ghost use Rattle.protocol.specs.Limits.{most_members};
ghost use Rattle.packets.specs.Bodies.{said};
ghost use Rattle.tape_frames.specs.Entries.{lent_entry};
ghost use Rattle.packets.specs.Rules.{keeps_rules, may_send, kind_of, may_say};
ghost use Rattle.packets.specs.Mails.{MayGo, IsFew, SaysTheSame, of_entry};

use crate::body::BodyRef;
use crate::laws::range_of_seat;
use crate::letter::Letter;
use crate::packet::{PacketRef, Route};
use crate::seat::Seat;
use ballots::{Ballot, Member, Number, VoteRef};
use std::marker::Model;
use tape_frames::EntryRef;

/// What goes out with a turn, beside the entry of its row: from a seat, about a number, at a ballot.
#[derive(Clone, Copy)]
pub struct Mail {
    seat: Seat,
    number: Number,
    ballot: Ballot,
    letter: Letter,
}

impl Model for Mail {
    ghost use Rattle.packets.specs.Mails.{Mail as MailValue, MayGo};

    ghost Value = { MailValue };

    ghost view = { λ m. record { seat = m.seat; number = m.number; ballot = m.ballot; letter = m.letter } };

    ghost invariant = { λ m. MayGo m.seat m.number m.ballot m.letter };

    ghost inverse = { λ m. record { seat = m.seat; number = m.number; ballot = m.ballot; letter = m.letter } };
}

/// The member of this number.
fn member(number: u8) -> Member
    requires low { 1 ≤ number }
    requires high { number ≤ most_members }
    ensures { result ≡ number }
{
    match Member::new(number) {
        Some(member) => member,
        None => unreachable!(),
    }
}

/// The packet at this place, where this is the only one.
pub(crate) fn only<'a>(place: usize, packet: PacketRef<'a>) -> Option<PacketRef<'a>>
    ensures { result ≡ slice_get (packet.entry ∷ []) place }
{
    if place > 0 {
        return None;
    }
    Some(packet)
}

impl Mail {
    /// The mail of this letter, whose packets have to keep the rules of packets: a Prepare or an Accept is at a ballot of the
    /// sender's own; a Promise or a Nack goes to another member, at a ballot of that member's, and a Nack's promise is above it;
    /// the news of a vote goes to another member.
    /// It sends two packets to each of 14 others at most.
    pub fn new(seat: Seat, number: Number, ballot: Ballot, letter: Letter) -> Mail
        requires { MayGo seat number ballot letter }
        ensures value { result ≡ record { seat = seat; number = number; ballot = ballot; letter = letter } }
        ensures few { IsFew (Some result) }
    {
        range_of_seat(seat);
        Mail {
            seat,
            number,
            ballot,
            letter,
        }
    }

    /// Its ballot.
    pub(crate) fn ballot(&self) -> Ballot
        ensures { result ≡ self.now.ballot }
    {
        self.ballot
    }

    /// What it says, and to whom.
    pub(crate) fn letter(&self) -> Letter
        ensures value { result ≡ self.now.letter }
        ensures may_go { MayGo self.now.seat self.now.number self.now.ballot result }
    {
        self.letter
    }

    /// The member that sends it.
    fn me(&self) -> Member
        ensures value { result ≡ self.now.seat.me }
        ensures member { (1 ≤ self.now.seat.me) × (self.now.seat.me ≤ self.now.seat.members) × (self.now.seat.members ≤ most_members) }
    {
        self.seat.me()
    }

    /// The packet to a member.
    pub(crate) fn packet_to<'a>(&self, to: Member, body: BodyRef<'a>) -> PacketRef<'a>
        requires { IsTrue (keeps_rules (packet_to self.now.seat self.now.number self.now.ballot (said body) to)) }
        ensures { result ≡ packet_to self.now.seat self.now.number self.now.ballot (said body.entry) to }
    {
        let route = Route {
            circuit: self.seat.circuit(),
            from: self.me(),
            to,
        };
        match PacketRef::new(route, self.number, self.ballot, body) {
            Some(packet) => packet,
            None => unreachable!(),
        }
    }

    /// How many others there are, 14 at most.
    pub(crate) fn others(&self) -> usize
        ensures many { result ≡ length (others self.now.seat) }
        ensures count { result + 1 ≡ self.now.seat.members }
        ensures few { result ≤ 14 }
    {
        let _me = self.me();
        usize::from(self.seat.members()) - 1
    }

    /// The other at this place, in rising order of members.
    fn other(&self, place: usize) -> Member
        requires { place + 1 < self.now.seat.members }
        ensures value { slice_get (others self.now.seat) place ≡ Some result }
        ensures apart { self.now.seat.me ≡ result → ⊥ }
    {
        let me = self.me().get();
        let next = place as u8 + 1;
        if next < me {
            return member(next);
        }
        member(next + 1)
    }

    /// The packet to the other at this place.
    pub(crate) fn to_other<'a>(&self, place: usize, body: BodyRef<'a>) -> Option<PacketRef<'a>>
        requires sender { (to : ℕ) → IsTrue (may_send (kind_of (said body)) self.now.ballot.owner self.now.seat.me to) }
        requires says { IsTrue (may_say (said body) self.now.ballot) }
        ensures { result ≡ slice_get (to_others self.now.seat self.now.number self.now.ballot (said body.entry)) place }
    {
        if place >= self.others() {
            return None;
        }
        Some(self.packet_to(self.other(place), body))
    }

    /// The packet at this place of the news of the vote, if there is one, to this member: there is only one.
    pub(crate) fn news<'a>(
        &self,
        place: usize,
        to: Member,
        vote: &Option<VoteRef<'a>>,
    ) -> Option<PacketRef<'a>>
        requires { ¬ (self.now.seat.me ≡ to) }
        ensures { result ≡ slice_get (of_entry (λ entry. packet_to self.now.seat self.now.number self.now.ballot (Accepted entry) to ∷ []) vote.now) place }
    {
        match vote {
            None => None,
            Some(vote) => {
                only(
                    place,
                    self.packet_to(
                        to,
                        BodyRef::Accepted {
                            entry: vote.entry(),
                        },
                    ),
                )
            }
        }
    }

    /// The packet at this place of those that propose the entry, and then tell of the vote for it.
    pub(crate) fn proposal<'a>(&self, place: usize, entry: EntryRef<'a>) -> Option<PacketRef<'a>>
        requires { self.now.ballot.owner ≡ self.now.seat.me }
        ensures { result ≡ slice_get (proposal_to_others self.now.seat self.now.number self.now.ballot (lent_entry entry.entry)) place }
    {
        let others = self.others();
        if place < others {
            return self.to_other(place, BodyRef::Accept { entry });
        }
        self.to_other(place - others, BodyRef::Accepted { entry })
    }

    /// The place of the first packet of a proposal that says the same as the one at this place: the Accepts stand before the news.
    pub(crate) fn first_of_proposal(&self, place: usize) -> usize
        ensures first { result ≤ place }
        ensures same { (entry : Entry) → SaysTheSame (proposal_to_others self.now.seat self.now.number self.now.ballot entry) result place }
    {
        let others = self.others();
        if place < others {
            return 0;
        }
        others
    }
}
