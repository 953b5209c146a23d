//! The packets of which some parts are there.

ghost use Rattle.std.specs.Prelude.{◌≡◌, ◌<◌, ◌≤◌, [], length, IfOk, OnOk, IfSome, MatchOption, option_map, vec_len};
ghost use Rattle.std.specs.List.{All, HoldsAt};
ghost use Rattle.seals.specs.Parts.{IsFor, IsSealedAs};
ghost use Rattle.seals.specs.Opening.{IsLabel, IsPart};
ghost use Rattle.seals.specs.Places.{IsFirst, IsBounded, IsReady, PutsAt, GathersPiece, Keeps, Roomed, count_from};

use crate::unfinished::Unfinished;
use crate::{Keys, Piece};
use ballots::Member;
use std::alloc::{AllocError, Global};
use std::marker::Model;

/// The most packets of one member of which parts are kept.
pub const MOST_UNFINISHED: usize = 4;

/// Packets of which some parts are there, those that began first in front; of one member four at most.
#[derive(Drop)]
pub struct Gathering {
    slots: Vec<Unfinished>,
}

impl Model for Gathering {
    ghost use Rattle.std.specs.Prelude.{List};
    ghost use Rattle.seals.specs.Parts.{Parts};
    ghost use Rattle.seals.specs.Places.{IsBounded};

    ghost Value = { List Parts };

    ghost view = { λ g. g.slots.items };

    ghost invariant = { λ g. IsBounded g.slots.items };
}

/// The first that the piece is a part of.
fn find(slots: &[Unfinished], piece: &Piece<'_>) -> Option<usize>
    ensures { MatchOption result (All (λ p. ¬ IsFor piece.now.place piece.now.label p) slots.now) (IsFirst (IsFor piece.now.place piece.now.label) slots.now) }
{
    for i in 0..slots.len() {
        let slot = &slots[i];
        if slot.is_for(piece) {
            return Some(i);
        }
    }
    None
}

/// How many are of this member.
fn count_from(slots: &[Unfinished], member: Member) -> usize
    ensures { result ≡ count_from member slots.now }
{
    let mut count = 0usize;
    for slot in slots {
        if slot.from().get() == member.get() {
            count += 1;
        }
    }
    count
}

/// The first of this member.
fn first_from(slots: &[Unfinished], member: Member) -> Option<usize>
    ensures { MatchOption result (All (λ p. ¬ (p.label.from ≡ member)) slots.now) (λ n. (n < length slots.now) × HoldsAt (λ p. p.label.from ≡ member) slots.now n) }
{
    for i in 0..slots.len() {
        let slot = &slots[i];
        if slot.from().get() == member.get() {
            return Some(i);
        }
    }
    None
}

/// Drops the oldest of this member, where there is no room for another.
fn make_room(slots: &mut Vec<Unfinished>, member: Member)
    ensures { Roomed member slots.old.items slots.new.items }
{
    if count_from(slots, member) < MOST_UNFINISHED {
        return;
    }
    match first_from(slots, member) {
        Some(at) => drop(slots.remove(at)),
        None => unreachable!(),
    }
}

/// Where the packet of the piece stands, after it was begun if no part of it was there.
fn make_ready(
    alloc: Global,
    slots: &mut Vec<Unfinished>,
    piece: &Piece<'_>,
) -> Result<usize, AllocError>
    requires { IsLabel piece.now.label }
    ensures ready { IfOk result (IsReady piece.now.place piece.now.label slots.old.items slots.new.items) }
    ensures inside { IfOk result (λ n. n < vec_len slots.new) }
    ensures bounded { IsBounded slots.old.items → IsBounded slots.new.items }
{
    if let Some(at) = find(slots, piece) {
        return Ok(at);
    }
    let slot = Unfinished::new(alloc, piece.place, piece.label)?;
    make_room(slots, piece.label.from());
    let at = slots.as_slice().len();
    slots.push(slot)?;
    Ok(at)
}

/// Takes the piece in at this place, and says whether the packet is whole.
fn put_at(slots: &mut Vec<Unfinished>, at: usize, piece: &Piece<'_>) -> bool
    requires inside { at < length slots.old.items }
    requires for_it { HoldsAt (IsFor piece.now.place piece.now.label) slots.old.items at }
    requires part { IsPart piece.now.label piece.now.index piece.now.part.now }
    ensures puts { PutsAt at piece.now.index piece.now.part.now slots.old.items slots.new.items result }
    ensures len { vec_len slots.new ≡ vec_len slots.old }
{
    let slot = &mut slots[at];
    slot.put(piece.index, piece.part);
    slot.is_whole()
}

impl Gathering {
    /// One of which no part is there.
    pub fn new(alloc: Global) -> Gathering
        ensures { result ≡ [] }
    {
        Gathering {
            slots: Vec::new(alloc),
        }
    }

    /// Takes in what a datagram brings, and answers the packet that it is the last part of. Where a member has begun four others, the
    /// oldest of them is dropped for a new one.
    pub fn push(
        &mut self,
        alloc: Global,
        keys: &Keys,
        piece: &Piece<'_>,
    ) -> Result<Option<Vec<u8>>, AllocError>
        requires { IsPart piece.now.label piece.now.index piece.now.part.now }
        // What is answered was sealed as a whole, with this label and under this key, whatever came before.
        ensures sealed { IfOk result (λ o. IfSome o (λ packet. IsSealedAs keys.now piece.now.place piece.now.label packet.items)) }
        // Each part that comes is there from then on, in whatever order they come, and the last that lacked gives the packet.
        ensures gathers { IfOk result (λ o. GathersPiece keys.now piece.now self.old self.new (option_map (λ v. v.items) o)) }
        // What is known of the others stays, but for one of a member that has begun four.
        ensures keeps { OnOk result (Keeps piece.now.place piece.now.label self.old self.new) }
        // Of no member more than four are kept.
        ensures bounded { IsBounded self.new }
    {
        let at = make_ready(alloc, &mut self.slots, piece)?;
        if !put_at(&mut self.slots, at, piece) {
            return Ok(None);
        }
        let whole = self.slots.remove(at);
        Ok(whole.finish(keys))
    }
}
