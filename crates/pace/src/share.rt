//! The datagrams of one member that wait in memory.

ghost use Rattle.std.specs.Prelude.{◌≡◌, ◌≤◌, ◌+◌, ◌++◌, ◌<◌, ◌↔◌, IsTrue, IfOk, option_to_list, vec_len, drop};
ghost use Rattle.pace.specs.Room.{FitsShare, has_one, nothing_of, puts_behind};

use ballots::Member;
use std::alloc::{AllocError, Global};
use std::collections::VecDeque;
use std::marker::Model;

/// A datagram of a member of the circuit. One of a stranger has no member, and so no place among those that wait.
#[derive(Drop)]
pub struct Incoming {
    /// Who sent it, by its address.
    pub sender: Member,
    /// Its bytes.
    pub bytes: Vec<u8>,
}

/// The datagrams of one member that wait, first in, first out, within its share of the memory.
#[derive(Drop)]
pub(crate) struct Share {
    datagrams: VecDeque<Incoming>,
    /// How many bytes the datagrams have in all.
    held: usize,
    /// How many datagrams wait at most.
    most: usize,
    /// How many bytes they have at most in all.
    most_bytes: usize,
}

impl Model for Share {
    ghost use Rattle.std.specs.Prelude.{◌≡◌, ◌≤◌, length};
    ghost use Rattle.std.specs.VecDeque.{deque_capacity};
    ghost use Rattle.pace.specs.Room.{ShareValue, bytes_of};

    ghost Value = { ShareValue };

    ghost view = { λ s. record { datagrams = s.datagrams.items; most = s.most; most_bytes = s.most_bytes } };

    ghost invariant = { λ s. (s.held ≡ bytes_of s.datagrams.items) × ((length s.datagrams.items ≤ s.most) × ((s.held ≤ s.most_bytes) × (s.most ≤ deque_capacity s.datagrams))) };
}

impl Share {
    /// None waits, and so many have a place, with so many bytes in all. The places are made at once.
    pub(crate) fn new(alloc: Global, most: usize, most_bytes: usize) -> Result<Share, AllocError>
        ensures { IfOk result (λ s. s ≡ nothing_of most most_bytes) }
    {
        let datagrams = VecDeque::with_capacity(alloc, most)?;
        Ok(Share {
            datagrams,
            held: 0,
            most,
            most_bytes,
        })
    }

    /// Whether a datagram waits.
    pub(crate) fn has_one(&self) -> bool
        ensures { result ≡ has_one self.now }
    {
        self.datagrams.len() > 0
    }

    /// Whether a datagram of so many bytes finds a place.
    fn has_room(&self, length: usize) -> bool
        ensures { IsTrue result ↔ FitsShare length self.now }
    {
        self.datagrams.len() < self.most && length <= self.most_bytes - self.held
    }

    /// Puts a datagram behind those that wait, where it finds a place. Whether it found one.
    pub(crate) fn put(&mut self, datagram: Incoming) -> bool
        ensures room { IsTrue result ↔ FitsShare (vec_len datagram.bytes) self.old }
        ensures put { self.new ≡ puts_behind result datagram self.old }
    {
        if !self.has_room(datagram.bytes.len()) {
            return false;
        }
        self.held += datagram.bytes.len();
        self.datagrams.push_back_reserved(datagram);
        true
    }

    /// Takes the datagram that waits longest.
    pub(crate) fn take(&mut self) -> Option<Incoming>
        ensures first { self.old.datagrams ≡ option_to_list result ++ self.new.datagrams }
        ensures rest { self.new ≡ record self.old { datagrams = drop 1 self.old.datagrams } }
    {
        let first = self.datagrams.pop_front()?;
        self.held -= first.bytes.len();
        Some(first)
    }
}
