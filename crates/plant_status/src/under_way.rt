//! The numbers under way, as they are kept in mind.

use crate::status::{Busy, Purpose};
use ballots::{Ballot, Number};
use std::alloc::{AllocError, Global};

/// How many numbers are kept in mind at most: fewer are under way.
const MOST: usize = 64;

/// The numbers under way, and those for which a file asks that is no search.
#[derive(Drop)]
pub(crate) struct UnderWay {
    busy: Vec<Busy>,
    offered: Vec<u32>,
}

/// Puts an item behind others, where there is room and memory.
fn keep<T: Drop>(list: &mut Vec<T>, item: T) {
    if list.len() < MOST {
        let _ = list.push(item);
    }
}

impl UnderWay {
    /// Nothing is under way.
    pub(crate) fn new(alloc: Global) -> UnderWay {
        UnderWay {
            busy: Vec::new(alloc),
            offered: Vec::new(alloc),
        }
    }

    /// Whether a file asks for a number that is no search.
    fn is_offered(&self, number: u32) -> bool {
        self.offered.as_slice().contains(&number)
    }

    /// A file asks for a number that is no search.
    pub(crate) fn offer(&mut self, number: Number) {
        let number = number.get();
        if !self.is_offered(number) {
            keep(&mut self.offered, number);
        }
    }

    /// A ballot of a number began.
    pub(crate) fn begin(&mut self, number: Number, ballot: Ballot) {
        let number = number.get();
        let purpose = if self.is_offered(number) {
            Purpose::Offer
        } else {
            Purpose::Seek
        };
        self.put(Busy {
            number,
            purpose,
            round: ballot.round(),
            owner: ballot.owner().get(),
        });
    }

    /// Puts a number in the place that it has, or else behind the others.
    fn put(&mut self, busy: Busy) {
        for found in self.busy.as_mut_slice() {
            if found.number == busy.number {
                *found = busy;
                return;
            }
        }
        keep(&mut self.busy, busy);
    }

    /// A number is no longer under way.
    pub(crate) fn end(&mut self, number: Number) {
        let number = number.get();
        self.busy.retain(|busy| busy.number != number);
        self.offered.retain(|offered| *offered != number);
    }

    /// The numbers under way.
    pub(crate) fn list(&self, alloc: Global) -> Result<Vec<Busy>, AllocError> {
        Vec::from_slice(alloc, self.busy.as_slice())
    }
}
