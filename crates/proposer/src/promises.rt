//! The promises that are counted, in a slot for each member.

ghost use Rattle.std.specs.Prelude.{◌≡◌, ◌≤◌, ◌<◌, ◌+◌, ◌*◌, ◌-◌, Some, IfOk, IsOk, OnOk, OnErr, true, false, not, is_some, count_by, length, nat_lt, slice_set, option_copied, if◌then◌else◌};
ghost use Rattle.protocol.specs.Proposals.{vote_above};
ghost use Rattle.protocol.specs.Limits.{most_members};
ghost use Rattle.proposer.specs.Slots.{nothing_counted, report_at, slots_with, vote_at};
ghost use Rattle.proposer.specs.Greatest.{IsGreatest};

use crate::slot::ReportSlot;
use arrayvec::ArrayVec;
use ballots::laws::slots_of_members;
use ballots::{MOST_MEMBERS, Member, Vote, VoteRef, majority};
use packets::Seat;
use std::alloc::{AllocError, Global};
use std::marker::Model;

/// Of each member, in rising order: what it reported, where it is counted. As many are used as the circuit has members.
type Reports = ArrayVec<ReportSlot, MOST_MEMBERS>;

/// Of each member, in rising order: what it reported, where it is counted. Clauses see this list.
#[derive(Drop)]
pub(crate) struct ReportSlots {
    seat: Seat,
    /// What the seat's member reported, as long as it alone is counted.
    own: Option<Vote>,
    /// None as long as that member alone is counted, so that a proposal that is just begun is small and takes no memory.
    slots: Option<Box<Reports>>,
}

impl Model for ReportSlots {
    ghost use Rattle.std.specs.Prelude.{◌≡◌, List, Option, length};
    ghost use Rattle.protocol.specs.Rows.{Vote as VoteValue};
    ghost use Rattle.proposer.specs.Slots.{slots_with};

    ghost Value = { List (Option (Option VoteValue)) };

    ghost view = { λ s. slots_with s.seat.members s.seat.me s.own s.slots };

    ghost invariant = { λ s. length (slots_with s.seat.members s.seat.me s.own s.slots) ≡ s.seat.members };
}

/// A slot for each of so many members, of whom none is counted.
fn empty_slots(members: u8) -> Reports
    requires { members ≤ most_members }
    ensures items { result.items ≡ nothing_counted members }
    ensures many { length result.items ≡ members }
{
    let mut slots = ArrayVec::new();
    for _ in 0..members {
        slots.push(ReportSlot::default());
    }
    slots
}

/// Puts the member's slot in.
fn set(slots: &mut Reports, member: Member, slot: ReportSlot)
    requires { member ≤ length slots.old.items }
    ensures { slots.new.items ≡ slice_set slots.old.items (member - 1) slot }
{
    slots[usize::from(member.get()) - 1] = slot;
}

/// A slot for each member, of whom that of the seat alone is counted, with what it reported.
/// The report is taken out of where it stands.
fn spread(alloc: Global, seat: Seat, own: &mut Option<Vote>) -> Result<Box<Reports>, AllocError>
    ensures spread { IfOk result (λ slots. slots.value.items ≡ slice_set (nothing_counted seat.members) (seat.me - 1) (Some own.old)) }
    ensures own { OnErr result (own.new ≡ own.old) }
{
    let me = seat.me();
    let mut slots = Box::new(alloc, empty_slots(seat.members()))?;
    set(&mut slots, me, ReportSlot::counted(alloc, own)?);
    Ok(slots)
}

impl ReportSlots {
    /// How many members there are.
    fn len(&self) -> u8
        ensures value { result ≡ length self.now }
        ensures few { result ≤ most_members }
    {
        self.seat.members()
    }

    /// Whether the member at this place is counted.
    fn is_counted(&self, place: usize) -> bool
        requires { place < length self.now }
        ensures { result ≡ is_some (report_at self.now (place + 1)) }
    {
        slots_of_members::<Option<Option<Vote>>>();
        let me = usize::from(self.seat.me().get());
        match &self.slots {
            None => me == place + 1,
            Some(slots) => slots.as_slice()[place].is_counted(),
        }
    }

    /// The vote that the member at this place reported, where it is counted and reported one.
    fn vote_of(&self, place: usize) -> Option<&Vote>
        requires { place < length self.now }
        ensures { option_copied result ≡ vote_at self.now (place + 1) }
    {
        slots_of_members::<Option<Option<Vote>>>();
        let me = usize::from(self.seat.me().get());
        match &self.slots {
            None => {
                if me == place + 1 {
                    return self.own.as_ref();
                }
                None
            }
            Some(slots) => slots.as_slice()[place].vote(),
        }
    }

    /// Counts the member, with what it reported.
    fn count(
        &mut self,
        alloc: Global,
        member: Member,
        report: Option<Vote>,
    ) -> Result<(), AllocError>
        requires { member ≤ length self.old }
        ensures ok { OnOk result (self.new ≡ slice_set self.old (member - 1) (Some report)) }
        ensures err { OnErr result (self.new ≡ self.old) }
    {
        let mut report = report;
        let slot = ReportSlot::counted(alloc, &mut report)?;
        match &mut self.slots {
            None => {
                let mut slots = spread(alloc, self.seat, &mut self.own)?;
                set(&mut slots, member, slot);
                self.slots = Some(slots);
            }
            Some(slots) => set(slots, member, slot),
        }
        Ok(())
    }
}

/// The slots of a seat's circuit, of whose members that of the seat alone is counted. It takes no memory.
#[tactic(auto, using(crate::proofs::Alone::alone_many))]
pub(crate) fn counted_alone(seat: Seat, report: Option<Vote>) -> ReportSlots
    ensures items { result ≡ slice_set (nothing_counted seat.members) (seat.me - 1) (Some report) }
    ensures many { length result ≡ seat.members }
{
    // The seat's range is known once it is read.
    let _me = seat.me();
    ReportSlots {
        seat,
        own: report,
        slots: None,
    }
}

/// The vote with frames of its own, where there is one.
fn copy_of(alloc: Global, vote: Option<VoteRef<'_>>) -> Result<Option<Vote>, AllocError>
    ensures { IfOk result (λ copy. copy ≡ vote.entry) }
{
    match vote {
        None => Ok(None),
        Some(vote) => Ok(Some(vote.copy(alloc)?)),
    }
}

/// Counts the member with what it reported, and answers whether it is new: one that is counted already stays as it is.
/// Only a new one takes memory.
pub(crate) fn count_once(
    alloc: Global,
    slots: &mut ReportSlots,
    member: Member,
    report: Option<VoteRef<'_>>,
) -> Result<bool, AllocError>
    requires { member ≤ length slots.old }
    ensures new { IfOk result (λ new. new ≡ not (is_some (report_at slots.old member))) }
    ensures slots { IfOk result (λ new. slots.new ≡ (if new then slice_set slots.old (member - 1) (Some report.entry) else slots.old)) }
    ensures err { OnErr result (slots.new ≡ slots.old) }
    ensures no_memory { is_some (report_at slots.old member) ≡ true → IsOk result }
{
    if slots.is_counted(usize::from(member.get()) - 1) {
        return Ok(false);
    }
    let report = copy_of(alloc, report)?;
    slots.count(alloc, member, report)?;
    Ok(true)
}

/// Whether the members that are counted are a majority of all.
pub(crate) fn is_quorum(slots: &ReportSlots) -> bool
    ensures { result ≡ nat_lt (length slots.now) (2 * count_by is_some slots.now) }
{
    let mut count = 0;
    for place in 0..slots.len() {
        if slots.is_counted(usize::from(place)) {
            count += 1;
        }
    }
    majority(count, slots.len())
}

/// Whether a vote is reported, and it is above the greatest so far: its ballot is greater, or there is none so far.
fn is_above(report: Option<&Vote>, greatest: Option<&Vote>) -> bool
    ensures { result ≡ vote_above (option_copied report.entry) (option_copied greatest.entry) false }
{
    match (report, greatest) {
        (None, _) => false,
        (Some(_), None) => true,
        (Some(report), Some(greatest)) => greatest.ballot().is_below(report.ballot()),
    }
}

/// The greatest of the reported votes, that of the least member where equal.
pub(crate) fn greatest_vote(slots: &ReportSlots) -> Option<&Vote>
    ensures { IsGreatest (vote_at slots.now) (length slots.now) (option_copied result) }
{
    let mut greatest = None;
    for place in 0..usize::from(slots.len()) {
        let report = slots.vote_of(place);
        if is_above(report, greatest) {
            greatest = report;
        }
    }
    greatest
}
