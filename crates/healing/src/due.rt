//! The numbers that wait, by the moment from which on they may be due.

ghost use Rattle.std.specs.Prelude.{◌≡◌, ℕ, true, false, [], OnOk, OnErr, ◌==◌, if◌then◌else◌};
ghost use Rattle.std.specs.BTreeSet.{insert_key};
ghost use Rattle.healing.specs.Queue.{moment_cmp, IsTaken, stands_in};

use std::alloc::{AllocError, Global};
use std::collections::BTreeSet;

/// Numbers by the moment at which they are looked at, in milliseconds.
#[derive(Drop)]
pub(crate) struct Queue {
    /// It may have numbers that wait no longer; those are passed over.
    moments: BTreeSet<(u64, u32)>,
    /// The numbers that wait, each once.
    waiting: BTreeSet<u32>,
}

impl Queue {
    /// None waits.
    pub(crate) fn new(alloc: Global) -> Queue
        ensures moments { result.moments.keys ≡ [] }
        ensures waiting { result.waiting.keys ≡ [] }
    {
        Queue {
            moments: BTreeSet::new(alloc),
            waiting: BTreeSet::new(alloc),
        }
    }

    /// Whether none waits.
    pub(crate) fn is_empty(&self) -> bool
        ensures { result ≡ true → self.now.waiting.keys ≡ [] }
    {
        self.waiting.is_empty()
    }

    /// The number waits, and is looked at from this moment on.
    pub(crate) fn put(&mut self, moment: u64, number: u32) -> Result<(), AllocError>
        ensures ok { OnOk result (self.new.moments.keys ≡ insert_key moment_cmp self.old.moments.keys (moment, number)) }
        ensures waits { OnOk result (stands_in self.new.waiting.keys number ≡ true) }
        ensures others { (n : ℕ) → stands_in self.old.waiting.keys n ≡ true → stands_in self.new.waiting.keys n ≡ true }
    {
        match self.moments.insert((moment, number)) {
            Ok(_) => {}
            Err(_) => return Err(AllocError),
        }
        match self.waiting.insert(number) {
            Ok(_) => Ok(()),
            Err(_) => Err(AllocError),
        }
    }

    /// The number waits no longer.
    pub(crate) fn leave(&mut self, number: u32)
        ensures waiting { (n : ℕ) → stands_in self.new.waiting.keys n ≡ (if n == number then false else stands_in self.old.waiting.keys n) }
    {
        self.waiting.remove(&number);
    }

    /// Takes the first number, if its moment has come.
    pub(crate) fn take(&mut self, now: u64) -> Option<u32>
        ensures taken { IsTaken now result self.old.moments.keys self.new.moments.keys }
        ensures waiting { self.new.waiting.keys ≡ self.old.waiting.keys }
    {
        let (moment, _) = self.moments.first()?;
        if *moment > now {
            return None;
        }
        let (_, number) = self.moments.pop_first()?;
        Some(number)
    }
}
