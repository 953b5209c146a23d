//! Datagrams that wait in memory until they are taken in: of each member its share, and the members take turns.

ghost use Rattle.std.specs.Prelude.{◌≡◌, ◌≤◌, ◌<◌, ◌+◌, ◌-◌, ◌*◌, ◌/◌, ◌^◌, ◌++◌, ◌↔◌, [], None, IsTrue, IfOk, IfSome, MatchOption, length, min, max, position, option_to_list, vec_len};
ghost use Rattle.pace.specs.Room.{HasRoom, has_one, lost_one, no_shares, nothing_waits, puts, turn_of, taken_at};

use crate::share::{Incoming, Share};
use std::alloc::{AllocError, Global};
use std::marker::Model;

/// How many datagrams wait at most, of all members together.
const MOST_DATAGRAMS: usize = 8192;

/// How many bytes they have at most in all.
const MOST_BYTES: usize = 16_777_216;

/// How many receives are made at most in one go.
pub const MOST_RECEIVES: usize = 8192;

/// How many receives are made at most in one go after a send, so that a flood holds up no answer.
pub const MOST_AFTER_A_SEND: usize = 64;

/// The datagrams that wait, and how many found no place. No member has more than its share, so that one that floods takes no place of
/// another; and the members take turns, so that it holds up no other.
#[derive(Drop)]
pub struct Waiting {
    /// One for each member, in rising order.
    shares: Vec<Share>,
    /// The place of the member from which on one is sought that has a datagram.
    next: usize,
    lost: u64,
}

impl Model for Waiting {
    ghost use Rattle.std.specs.Prelude.{◌≤◌, length};
    ghost use Rattle.pace.specs.Room.{WaitingValue};

    ghost Value = { WaitingValue };

    ghost view = { λ w. record { shares = w.shares.items; next = w.next; lost = w.lost } };

    ghost invariant = { λ w. w.next ≤ length w.shares.items };
}

/// A share for each of so many members, of which none waits.
fn empty_shares(alloc: Global, members: u8) -> Result<Vec<Share>, AllocError>
    ensures { IfOk result (λ v. v.items ≡ no_shares members members) }
{
    let divisor = usize::from(members.max(1));
    let mut shares = Vec::new(alloc);
    for _ in 0..members {
        shares.push(Share::new(alloc, MOST_DATAGRAMS / divisor, MOST_BYTES / divisor)?)?;
    }
    Ok(shares)
}

/// The first place of which a datagram waits.
fn first_of(shares: &[Share]) -> Option<usize>
    ensures place { result ≡ position has_one shares.now }
    ensures within { IfSome result (λ place. place < length shares.now) }
{
    shares.iter().position(|share| share.has_one())
}

impl Waiting {
    /// None waits of a circuit of so many members. Each has the same share of 8,192 datagrams and of 16 MB. The places are made at
    /// once, some 256 kilobytes; the bytes of a datagram are its own.
    pub fn new(alloc: Global, members: u8) -> Result<Waiting, AllocError>
        ensures { IfOk result (λ w. w ≡ nothing_waits members) }
    {
        let shares = empty_shares(alloc, members)?;
        Ok(Waiting {
            shares,
            next: 0,
            lost: 0,
        })
    }

    /// The place of the member whose turn it is: the first that has a datagram, from the next on, or else from the first on.
    fn turn(&self) -> Option<usize>
        ensures turn { result ≡ turn_of self.now }
        ensures within { IfSome result (λ place. place < length self.now.shares) }
    {
        let shares = self.shares.as_slice();
        match first_of(&shares[self.next..]) {
            Some(place) => Some(self.next + place),
            None => first_of(shares),
        }
    }

    /// Whether no datagram waits.
    pub fn is_empty(&self) -> bool
        ensures { IsTrue result ↔ (turn_of self.now ≡ None) }
    {
        self.turn().is_none()
    }

    /// A datagram found no place, or no memory.
    pub fn lose(&mut self)
        ensures { self.new ≡ lost_one self.old }
    {
        self.lost = self.lost.saturating_add(1);
    }

    /// Puts a datagram behind those of its sender that wait, where it finds a place; else it is lost, and counted. Whether it found
    /// one.
    pub fn put(&mut self, datagram: Incoming) -> bool
        ensures room { IsTrue result ↔ HasRoom datagram.sender (vec_len datagram.bytes) self.old }
        ensures put { self.new ≡ puts result datagram self.old }
    {
        let place = usize::from(datagram.sender.get()) - 1;
        if place >= self.shares.len() {
            self.lose();
            return false;
        }
        let found = self.shares[place].put(datagram);
        if !found {
            self.lose();
        }
        found
    }

    /// Takes the datagram that waits longest of the member whose turn it is; the next turn is that of the member behind it.
    pub fn take(&mut self) -> Option<Incoming>
        ensures { MatchOption (turn_of self.old) ((result ≡ None) × (self.new ≡ self.old)) (λ place. taken_at place result self.old self.new) }
    {
        let place = self.turn()?;
        self.next = place + 1;
        self.shares[place].take()
    }

    /// How many datagrams found no place since this was asked last, or as many as there are numbers for.
    pub fn tell_lost(&mut self) -> u64
        ensures told { result ≡ self.old.lost }
        ensures none { self.new ≡ record self.old { lost = 0 } }
    {
        let lost = self.lost;
        self.lost = 0;
        lost
    }
}
