//! What goes out with a turn, packet by packet. It owns no entry: what it tells is the vote of the row after the turn, lent from there.

ghost use Rattle.std.specs.Prelude.{◌≡◌, ◌≤◌, length, slice_get, option_copied};
ghost use Rattle.packets.specs.Mails.{vote_below, mail_sends, SaysTheSame};

use crate::body::BodyRef;
use crate::letter::Letter;
use crate::mail::{Mail, only};
use crate::packet::PacketRef;
use ballots::{Ballot, Vote, VoteRef};
use std::marker::Model;

/// The packets that go out with a turn, in order, their entries lent. Clauses see the list of them.
#[derive(Drop)]
pub struct Outgoing<'a> {
    mail: Option<Mail>,
    vote: Option<VoteRef<'a>>,
}

impl<'a> Model for Outgoing<'a> {
    ghost use Rattle.std.specs.Prelude.{List};
    ghost use Rattle.protocol.specs.Packets.{Packet as PacketValue};
    ghost use Rattle.packets.specs.Mails.{mail_sends};

    ghost Value = { List PacketValue };

    ghost view = { λ o. mail_sends o.mail o.vote };
}

/// The vote, if there is one, its entry lent.
fn lent(vote: Option<&Vote>) -> Option<VoteRef<'_>>
    ensures { result ≡ option_copied vote.entry }
{
    match vote {
        None => None,
        Some(vote) => Some(vote.lend()),
    }
}

/// The vote, lent once more, where it is below the ballot.
fn report_below<'a>(vote: &Option<VoteRef<'a>>, ballot: Ballot) -> Option<VoteRef<'a>>
    ensures { result ≡ vote_below ballot vote.now }
{
    match vote {
        Some(vote) if vote.ballot().is_below(ballot) => Some(vote.lend()),
        _ => None,
    }
}

impl<'a> Outgoing<'a> {
    /// What the mail sends, where this is the vote of the row after the turn.
    pub fn new(mail: Option<Mail>, vote: Option<&'a Vote>) -> Outgoing<'a>
        ensures { result ≡ mail_sends mail (option_copied vote.entry) }
    {
        Outgoing {
            mail,
            vote: lent(vote),
        }
    }

    /// How many packets go out, 28 at most.
    pub fn len(&self) -> usize
        ensures { result ≡ length self.now }
    {
        let Some(mail) = &self.mail else {
            return 0;
        };
        let others = mail.others();
        match mail.letter() {
            Letter::Prepare => others,
            Letter::Proposal if self.vote.is_some() => 2 * others,
            Letter::Vote if self.vote.is_some() => others,
            Letter::VoteTo { .. } if self.vote.is_some() => 1,
            Letter::Proposal | Letter::Vote | Letter::VoteTo { .. } => 0,
            Letter::Promise { .. } | Letter::Nack { .. } => 1,
        }
    }

    /// The packet at this place, counted from 0; `None` where there are fewer.
    pub fn get(&self, place: usize) -> Option<PacketRef<'a>>
        ensures { result ≡ slice_get self.now place }
    {
        let Some(mail) = &self.mail else {
            return None;
        };
        match (mail.letter(), &self.vote) {
            (Letter::Prepare, _) => mail.to_other(place, BodyRef::Prepare),
            (Letter::Proposal, Some(vote)) => mail.proposal(place, vote.entry()),
            (Letter::Vote, Some(vote)) => {
                mail.to_other(
                    place,
                    BodyRef::Accepted {
                        entry: vote.entry(),
                    },
                )
            }
            (Letter::Proposal, None) | (Letter::Vote, None) => None,
            (Letter::VoteTo { to }, vote) => mail.news(place, to, vote),
            (Letter::Promise { to }, vote) => {
                let report = report_below(vote, mail.ballot());
                only(place, mail.packet_to(to, BodyRef::Promise { report }))
            }
            (Letter::Nack { to, promised }, _) => only(
                place,
                mail.packet_to(to, BodyRef::Nack { promised }),
            ),
        }
    }

    /// The place of the first packet that says the same as the one at this place, to whatever member: no later than this place. What goes
    /// to all others says the same to each, so it has to be spelled once.
    pub fn first_alike(&self, place: usize) -> usize
        ensures first { result ≤ place }
        ensures same { SaysTheSame self.now result place }
    {
        let Some(mail) = &self.mail else {
            return place;
        };
        match mail.letter() {
            Letter::Prepare | Letter::Vote => 0,
            Letter::Proposal => mail.first_of_proposal(place),
            Letter::VoteTo { .. } | Letter::Promise { .. } | Letter::Nack { .. } => place,
        }
    }
}
