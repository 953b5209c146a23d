//! A packet of which some parts are there.

ghost use Rattle.std.specs.Prelude.{◌≡◌, ◌↔◌, ◌<◌, ◌≤◌, ◌*◌, ◌+◌, ℕ, IsTrue, true, false, length, slice_set, slice_index_or, IfOk, IfSome, IsSome};
ghost use Rattle.seals.specs.Sealing.{most_packet, count_of, part_len, label_of};
ghost use Rattle.seals.specs.Opening.{IsKeyAt};
ghost use Rattle.seals.specs.Parts.{IsFor, IsSealedAs, IsWhole, placed, blank, with_part};
ghost use Rattle.seals.specs.Opening.{IsLabel};

use crate::{KeyPlace, Keys, Label, MOST_PARTS, Piece};
use ballots::Member;
use std::alloc::{AllocError, Global};
use std::marker::Model;

/// The most bytes of a part.
const ROOM: usize = 1192;

/// A packet of this label, under the key at this place, of which some parts are there.
#[derive(Drop)]
pub(crate) struct Unfinished {
    place: KeyPlace,
    label: Label,
    have: [bool; MOST_PARTS],
    bytes: Vec<u8>,
}

impl Model for Unfinished {
    ghost use Rattle.seals.specs.Parts.{Parts, IsSound};

    ghost Value = { Parts };

    ghost view = { λ u. record { place = u.place; label = u.label; have = u.have; bytes = u.bytes.items } };

    ghost invariant = { λ u. IsSound (record { place = u.place; label = u.label; have = u.have; bytes = u.bytes.items }) };
}

/// Writes the part of this index into its place.
fn put_part(bytes: &mut [u8], index: u8, part: &[u8])
    requires { 1192 * index + length part.now ≤ length bytes.old }
    ensures { bytes.new ≡ placed bytes.old index part.now }
{
    let start = ROOM * index as usize;
    bytes[start..start + part.len()].copy_from_slice(part);
}

/// Whether the first so many are there.
fn has_all(have: &[bool; MOST_PARTS], count: u8) -> bool
    requires { count ≤ 11 }
    ensures { IsTrue result ↔ IsWhole have.now count }
{
    for i in 0..count {
        if !have[i as usize] {
            return false;
        }
    }
    true
}

impl Unfinished {
    /// One of which no part is there yet.
    pub(crate) fn new(
        alloc: Global,
        place: KeyPlace,
        label: Label,
    ) -> Result<Unfinished, AllocError>
        requires { IsLabel label }
        ensures { IfOk result (λ u. u ≡ blank place label) }
    {
        let bytes = vec![in alloc; 0u8; label.len() as usize]?;
        Ok(Unfinished {
            place,
            label,
            have: [false; MOST_PARTS],
            bytes,
        })
    }

    /// The member that sends it.
    pub(crate) fn from(&self) -> Member
        ensures { result ≡ self.now.label.from }
    {
        self.label.from()
    }

    /// Whether the piece is a part of it.
    pub(crate) fn is_for(&self, piece: &Piece<'_>) -> bool
        ensures { IsTrue result ↔ IsFor piece.now.place piece.now.label self.now }
    {
        self.place.is_same(piece.place) && self.label.is_same(&piece.label)
    }

    /// Takes a part in; one that was there stands there again.
    pub(crate) fn put(&mut self, index: u8, part: &[u8])
        requires index { index < count_of self.old.label.length }
        requires part { length part.now ≡ part_len self.old.label.length index }
        ensures { self.new ≡ with_part self.old index part.now }
    {
        put_part(&mut self.bytes, index, part);
        self.have[index as usize] = true;
    }

    /// Whether all parts are there.
    pub(crate) fn is_whole(&self) -> bool
        ensures { IsTrue result ↔ IsWhole self.now.have (count_of self.now.label.length) }
    {
        has_all(&self.have, self.label.count())
    }

    /// Its bytes, where they are the packet that its label was made for, under the key at its place.
    pub(crate) fn finish(self, keys: &Keys) -> Option<Vec<u8>>
        ensures some { IfSome result (λ packet. (packet.items ≡ self.bytes) × IsSealedAs keys.now self.place self.label packet.items) }
        ensures only { IsSealedAs keys.now self.place self.label self.bytes → IsSome result }
    {
        let Unfinished {
            place,
            label,
            have: _,
            bytes,
        } = self;
        match keys.at(place) {
            Some(key) if label.is_of(key, &bytes) => Some(bytes),
            _ => None,
        }
    }
}
