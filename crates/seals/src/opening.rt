//! Opening a datagram.

ghost use Rattle.std.specs.Prelude.{◌≡◌, ◌⊎◌, ◌≤◌, ◌-◌, IfOk, IfErr, OnErr, length, IsTrue, IfNone, IfSome, ◌↔◌, Err, List, ℕ};
ghost use Rattle.seals.specs.Opening.{IsKeyAt, IsTagged, IsPlaceOf, OpensAt, OpensNone, IsPart};
ghost use Rattle.seals.specs.Reading.{head_at};
ghost use Rattle.seals.specs.declared.head.SealFault.TheVariants.{BadTag};

use crate::bytes::{TAG_LEN, is_same, tag_of};
use crate::head::{HEAD_LEN, SealFault, head_at};
use crate::label::Label;
use ballots::Member;
use hmac::Key;
use hmac::laws::lengths;

/// The keys of a circuit: the first is sent under, and either is taken.
#[derive(Drop)]
pub struct Keys {
    pub first: Key,
    pub second: Option<Key>,
}

/// Which of the keys a datagram was sent under.
#[derive(Clone, Copy, PartialEq, Eq)]
pub enum KeyPlace {
    First,
    Second,
}

impl KeyPlace {
    /// Whether the two are one place.
    pub fn is_same(self, other: KeyPlace) -> bool
        ensures { IsTrue result ↔ (self ≡ other) }
    {
        matches!(
            (self, other),
            (KeyPlace::First, KeyPlace::First) | (KeyPlace::Second, KeyPlace::Second)
        )
    }
}

impl Keys {
    /// The key at this place, where there is one.
    pub fn at(&self, place: KeyPlace) -> Option<&Key>
        ensures none { IfNone result ((block : List ℕ) → ¬ IsKeyAt self.now place block) }
        ensures some { IfSome result (λ key. IsKeyAt self.now place key.now) }
    {
        match place {
            KeyPlace::First => Some(&self.first),
            KeyPlace::Second => self.second.as_ref(),
        }
    }
}

/// What a datagram brings: a part of a packet.
#[derive(Clone, Copy)]
pub struct Piece<'a> {
    pub place: KeyPlace,
    pub label: Label,
    pub index: u8,
    pub part: &'a [u8],
}

/// Whether the bytes end with the tag of what stands before it.
fn is_tagged(key: &Key, bytes: &[u8]) -> bool
    requires { 16 ≤ length bytes.now }
    ensures { IsTrue result ↔ IsTagged key.now bytes.now }
{
    let (front, tag) = bytes.split_at(bytes.len() - TAG_LEN);
    is_same(&tag_of(key, front), tag)
}

/// Under which of the keys the bytes are tagged, if under any.
fn place_of(keys: &Keys, bytes: &[u8]) -> Option<KeyPlace>
    requires { 16 ≤ length bytes.now }
    ensures { IsPlaceOf keys.now bytes.now result }
{
    if is_tagged(&keys.first, bytes) {
        return Some(KeyPlace::First);
    }
    match &keys.second {
        Some(key) if is_tagged(key, bytes) => Some(KeyPlace::Second),
        _ => None,
    }
}

/// Opens a datagram for this member: the part that it brings, where it is tagged under one of the keys, or its first fault.
pub fn open<'a>(keys: &Keys, own: Member, bytes: &'a [u8]) -> Result<Piece<'a>, SealFault>
    // What is answered was made by someone who holds that key, for this member.
    ensures opens { IfOk result (λ p. OpensAt keys.now p.place own bytes.now p.label p.index p.part.now) }
    ensures part { IfOk result (λ p. IsPart p.label p.index p.part.now) }
    // What such a one makes is opened.
    ensures only { OnErr result (OpensNone keys.now own bytes.now) }
    ensures fault { IfErr result (λ fault. (fault ≡ BadTag) ⊎ (head_at own bytes.now ≡ Err fault)) }
{
    lengths();
    let _member = own.get();
    let head = match head_at(own, bytes) {
        Ok(head) => head,
        Err(fault) => return Err(fault),
    };
    let Some(place) = place_of(keys, bytes) else {
        return Err(SealFault::BadTag);
    };
    let (_, rest) = bytes.split_at(HEAD_LEN);
    let (part, _) = rest.split_at(rest.len() - TAG_LEN);
    Ok(Piece {
        place,
        label: head.label,
        index: head.index,
        part,
    })
}
