//! Votes that were heard, in a slot for each member.

ghost use Rattle.std.specs.Prelude.{◌≡◌, ◌≤◌, ℕ, [], Option, None, Bool, false, IfOk, IsOk, OnOk, OnErr, length, option_map, option_copied, count_by, is_some, MatchBool};
ghost use Rattle.protocol.specs.Rows.{Vote as VoteValue};
ghost use Rattle.protocol.specs.Learner.{votes_at};
ghost use Rattle.protocol.specs.Limits.{most_members};
ghost use Rattle.learner.specs.Latest.{StandsFor, latest_votes, StandsAfterVote, TellsRipeBallot, IsOkWhereNotAbove, IsLeastEntry, IsRipeEntry};
ghost use Rattle.learner.specs.Slots.{is_newer, kept, slot_of, nothing_heard, opened, written, ripe_in, least_in, IsPlaceOfLeast};
ghost use Rattle.tape_frames.specs.Entries.{lent_entry, owned_entry};

use crate::slot::Slot;
use arrayvec::ArrayVec;
use ballots::laws::{range_of_member, slots_of_members};
use ballots::{Ballot, MOST_MEMBERS, Member, Vote, majority};
use std::alloc::{AllocError, Global};
use std::marker::Model;
use tape_frames::{Entry, EntryRef};

/// Of each member, in rising order, the vote that was heard. As many are used as the circuit has members.
type Slots = ArrayVec<Slot, MOST_MEMBERS>;

/// The votes for one number that were heard since the station's start: of each member the one of greatest ballot.
///
/// Lamport, Paxos Made Simple: a learner finds out that an entry is chosen by hearing of the votes of a majority.
#[derive(Drop)]
pub struct Heard {
    alloc: Global,
    members: u8,
    /// None until the first vote is kept, so that a number in hand is small.
    slots: Option<Box<Slots>>,
}

impl Model for Heard {
    ghost use Rattle.std.specs.Prelude.{◌≤◌, length};
    ghost use Rattle.std.specs.Prelude.{◌≡◌};
    ghost use Rattle.learner.specs.Latest.{LatestVotes};
    ghost use Rattle.learner.specs.Slots.{opened};
    ghost use Rattle.protocol.specs.Limits.{most_members};

    ghost Value = { LatestVotes };

    ghost view = { λ h. record { members = length (opened h.members h.slots); votes = opened h.members h.slots } };

    ghost invariant = { λ h. (h.members ≤ most_members) × (length (opened h.members h.slots) ≡ h.members) };
}

/// A vote that is heard of a member, its entry lent.
#[derive(Drop)]
struct NewVote<'a> {
    member: Member,
    ballot: Ballot,
    entry: EntryRef<'a>,
}

/// A slot for each of so many members, with nothing heard.
fn empty_slots(members: u8) -> Slots
    requires { members ≤ most_members }
    ensures items { result.items ≡ nothing_heard members }
    ensures many { length result.items ≡ members }
{
    let mut slots = ArrayVec::new();
    for _ in 0..members {
        slots.push(Slot::default());
    }
    slots
}

/// The slots, lent; none as long as no vote is kept.
fn lent(slots: &Option<Box<Slots>>) -> &[Slot]
    ensures value { result.now ≡ written slots.now }
    ensures few { length result.now ≤ most_members }
{
    match slots {
        None => &[],
        Some(slots) => slots.as_slice(),
    }
}

/// Whether no slot has a vote.
fn are_empty(slots: &[Slot]) -> bool
    ensures { MatchBool result (slots.now ≡ nothing_heard (length slots.now)) (slots.now ≡ nothing_heard (length slots.now) → ⊥) }
{
    for slot in slots {
        if slot.has_vote() {
            return false;
        }
    }
    true
}

/// How many slots have a vote at the ballot.
fn count_at(slots: &[Slot], ballot: Ballot) -> u8
    requires { length slots.now ≤ most_members }
    ensures { result ≡ count_by (votes_at ballot) slots.now }
{
    let mut count = 0;
    for slot in slots {
        if slot.is_at(ballot) {
            count += 1;
        }
    }
    count
}

/// How many slots have a vote.
fn count_votes(slots: &[Slot]) -> u8
    requires { length slots.now ≤ most_members }
    ensures { result ≡ count_by is_some slots.now }
{
    let mut votes = 0;
    for slot in slots {
        if slot.has_vote() {
            votes += 1;
        }
    }
    votes
}

/// The ballot of the least member's vote at whose ballot the votes of a majority stand. Where so few slots have votes that
/// no ballot has a majority, no ballot is looked at.
fn chosen_at(heard: &Option<Box<Slots>>) -> Option<Ballot>
    ensures { result ≡ option_map (λ (v : VoteValue). v.ballot) (ripe_in (written heard.now)) }
{
    let slots = lent(heard);
    if !majority(count_votes(slots), slots.len() as u8) {
        return None;
    }
    for slot in slots {
        if let Some(vote) = slot.vote() {
            let ballot = vote.ballot();
            if majority(count_at(slots, ballot), slots.len() as u8) {
                return Some(ballot);
            }
        }
    }
    None
}

/// The place of the least member whose vote has this ballot.
fn place_at(slots: &[Slot], ballot: Ballot) -> Option<usize>
    ensures { IsPlaceOfLeast result ballot slots.now }
{
    for place in 0..slots.len() {
        if slots[place].is_at(ballot) {
            return Some(place);
        }
    }
    None
}

/// The vote of the least member whose vote has this ballot.
fn least_at(slots: &[Slot], ballot: Ballot) -> Option<&Vote>
    ensures { option_copied result ≡ least_in ballot slots.now }
{
    match place_at(slots, ballot) {
        None => None,
        Some(place) => slots[place].vote(),
    }
}

/// Gives up the entry of the least member whose vote has this ballot.
fn give_up_at(slots: &mut Slots, ballot: Ballot) -> Option<Entry>
    ensures { option_map owned_entry result ≡ option_map (λ (v : VoteValue). v.entry) (least_in ballot slots.old.items) }
{
    match place_at(slots.as_slice(), ballot) {
        None => None,
        Some(place) => slots[place].give_up(),
    }
}

/// Gives up the entry as `give_up_at`, and forgets all votes.
fn give_up(slots: &mut Option<Box<Slots>>, ballot: Ballot) -> Option<Entry>
    ensures entry { option_map owned_entry result ≡ option_map (λ (v : VoteValue). v.entry) (least_in ballot (written slots.old)) }
    ensures forgets { slots.new ≡ None }
{
    match slots {
        None => None,
        Some(heard) => {
            let entry = give_up_at(heard, ballot);
            *slots = None;
            entry
        }
    }
}

/// Keeps the vote in its member's slot, where it is above the one that stands there. Only then does it take memory.
fn keep_newer(alloc: Global, slots: &mut Slots, vote: NewVote<'_>) -> Result<(), AllocError>
    requires { vote.member ≤ length slots.old.items }
    ensures kept { OnOk result (slots.new.items ≡ kept slots.old.items vote.entry.member vote.entry.ballot (lent_entry vote.entry.entry)) }
    ensures err { OnErr result (slots.new.items ≡ slots.old.items) }
    ensures no_memory { is_newer vote.entry.ballot (slot_of slots.old.items vote.entry.member) ≡ false → IsOk result }
{
    let NewVote {
        member,
        ballot,
        entry,
    } = vote;
    let place = usize::from(member.get()) - 1;
    if slots[place].gives_way_to(ballot) {
        let entry = entry.copy(alloc)?;
        slots[place] = Slot::voted(alloc, Vote::new(ballot, entry))?;
    }
    Ok(())
}

/// Keeps the vote as `keep_newer`, in slots that are made with the first.
#[tactic(auto, using(crate::proofs::Opening::nothing_there))]
fn keep(
    alloc: Global,
    slots: &mut Option<Box<Slots>>,
    members: u8,
    vote: NewVote<'_>,
) -> Result<(), AllocError>
    requires few { members ≤ most_members }
    requires member { vote.member ≤ length (opened members slots.old) }
    ensures kept { OnOk result (opened members slots.new ≡ kept (opened members slots.old) vote.entry.member vote.entry.ballot (lent_entry vote.entry.entry)) }
    ensures written { OnOk result (written slots.new ≡ opened members slots.new) }
    ensures err { OnErr result (opened members slots.new ≡ opened members slots.old) }
    ensures no_memory { is_newer vote.entry.ballot (slot_of (opened members slots.old) vote.entry.member) ≡ false → IsOk result }
{
    match slots {
        None => {
            let mut first = Box::new(alloc, empty_slots(members))?;
            keep_newer(alloc, &mut first, vote)?;
            *slots = Some(first);
            Ok(())
        }
        Some(slots) => keep_newer(alloc, slots, vote),
    }
}

impl Heard {
    /// Nothing was heard yet, in a circuit of so many members.
    pub fn new(alloc: Global, members: u8) -> Heard
        requires low { 1 ≤ members }
        requires high { members ≤ most_members }
        ensures members { result.members ≡ members }
        ensures stands { (n : ℕ) → StandsFor result n [] }
    {
        slots_of_members::<Option<Vote>>();
        Heard {
            alloc,
            members,
            slots: None,
        }
    }

    /// Whether no vote was heard yet.
    pub fn is_empty(&self) -> bool
        ensures { MatchBool result (self.now ≡ latest_votes self.now.members 0 []) (self.now ≡ latest_votes self.now.members 0 [] → ⊥) }
    {
        are_empty(lent(&self.slots))
    }

    /// Takes a member's vote in, and answers the ballot at which the latest votes of a majority now stand, if any.
    ///
    /// A vote of a member takes the place of another only where its ballot is greater.
    /// After `Err` nothing was taken in. A vote that isn't above the member's own takes no memory.
    pub fn hear(
        &mut self,
        member: Member,
        ballot: Ballot,
        entry: EntryRef<'_>,
    ) -> Result<Option<Ballot>, AllocError>
        requires { member ≤ self.old.members }
        ensures ripe { IfOk result (λ chosen. TellsRipeBallot chosen member ballot (lent_entry entry.entry) self.old) }
        ensures stands { OnOk result (StandsAfterVote member ballot (lent_entry entry.entry) self.old self.new) }
        ensures members { self.new.members ≡ self.old.members }
        ensures err { OnErr result (self.new ≡ self.old) }
        ensures no_memory { IsOkWhereNotAbove result member ballot self.old }
    {
        slots_of_members::<Option<Vote>>();
        range_of_member(member);
        let vote = NewVote {
            member,
            ballot,
            entry,
        };
        keep(self.alloc, &mut self.slots, self.members, vote)?;
        Ok(chosen_at(&self.slots))
    }

    /// The entry of the least member whose latest vote has this ballot, lent.
    pub fn tape_at(&self, ballot: Ballot) -> Option<EntryRef<'_>>
        ensures least { IsLeastEntry (option_map lent_entry result) ballot self.now }
        ensures ripe { IsRipeEntry (option_map lent_entry result) ballot self.now }
    {
        match least_at(lent(&self.slots), ballot) {
            None => None,
            Some(vote) => Some(vote.entry()),
        }
    }

    /// Gives up the entry of the least member whose latest vote has this ballot, and forgets all that was heard.
    ///
    /// It takes no memory: the entry is not copied.
    pub fn release_at(&mut self, ballot: Ballot) -> Option<Entry>
        ensures least { IsLeastEntry (option_map owned_entry result) ballot self.old }
        ensures ripe { IsRipeEntry (option_map owned_entry result) ballot self.old }
        ensures forgets { self.new ≡ latest_votes self.old.members 0 [] }
    {
        slots_of_members::<Option<Vote>>();
        give_up(&mut self.slots, ballot)
    }
}
