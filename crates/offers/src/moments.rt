//! Moments by index, of which some are none. The first of each 256 is kept beside them, so that the first of all is found without a walk
//! over all.

ghost use Rattle.std.specs.Prelude.{◌≡◌, ◌≤◌, ◌<◌, ◌+◌, ◌*◌, [], None, IfOk, IfSome, IsSome, length, slice_set};
ghost use Rattle.offers.specs.Moments.{moment_at, sooner, earlier, MatchIn, AreNone, NoneIn, NoneFrom, AreBlocks};

use std::alloc::{AllocError, Global};
use std::marker::Model;

/// How many are in a block.
const BLOCK: usize = 256;

/// Moments by index, in milliseconds, of which some are none.
#[derive(Drop)]
pub(crate) struct Moments {
    each: Vec<Option<u64>>,
    /// Of each block the first, with its index.
    blocks: Vec<Option<(usize, u64)>>,
}

impl Model for Moments {
    ghost use Rattle.std.specs.Prelude.{ℕ, List, Option};
    ghost use Rattle.offers.specs.Moments.{AreBlocks};

    ghost Value = { List (Option ℕ) };

    ghost view = { λ m. m.each.items };

    ghost invariant = { λ m. AreBlocks m.each.items m.blocks.items };
}

/// The first so far, with its index, and one more, if there is one: the sooner of the two.
fn sooner(first: Option<(usize, u64)>, index: usize, moment: Option<u64>) -> Option<(usize, u64)>
    ensures { result ≡ sooner first index moment }
{
    match (first, moment) {
        (Some((_, at)), Some(own)) => if own < at { Some((index, own)) } else { first },
        (None, Some(own)) => Some((index, own)),
        (_, None) => first,
    }
}

/// The same of the first of others.
fn earlier(first: Option<(usize, u64)>, other: Option<(usize, u64)>) -> Option<(usize, u64)>
    ensures { result ≡ earlier first other }
{
    match other {
        Some((index, moment)) => sooner(first, index, Some(moment)),
        None => first,
    }
}

/// The first of those from one index to another.
fn first_in(moments: &[Option<u64>], low: usize, high: usize) -> Option<(usize, u64)>
    requires { high ≤ length moments.now }
    ensures { low ≤ high → MatchIn moments.now low high result }
{
    let mut first = None;
    for index in low..high {
        first = sooner(first, index, moments[index]);
    }
    first
}

/// The first of a block.
fn first_of(moments: &[Option<u64>], block: usize) -> Option<(usize, u64)>
    requires { 256 * block < length moments.now }
    ensures { MatchIn moments.now (256 * block) (256 * block + 256) result }
{
    let low = BLOCK * block;
    let many = (moments.len() - low).min(BLOCK);
    first_in(moments, low, low + many)
}

impl Moments {
    /// None.
    pub(crate) fn new(alloc: Global) -> Moments
        ensures { result ≡ [] }
    {
        Moments {
            each: Vec::new(alloc),
            blocks: Vec::new(alloc),
        }
    }

    /// So many, each of them none.
    pub(crate) fn none(alloc: Global, len: usize) -> Result<Moments, AllocError>
        ensures len { IfOk result (λ m. length m ≡ len) }
        ensures none { IfOk result AreNone }
    {
        let each = Vec::from_elem(alloc, None, len)?;
        let blocks = Vec::from_elem(alloc, None, len / BLOCK + 1)?;
        Ok(Moments { each, blocks })
    }

    /// Puts a moment, or none, at an index.
    pub(crate) fn set(&mut self, index: usize, moment: Option<u64>)
        requires { index < length self.old }
        ensures { self.new ≡ slice_set self.old index moment }
    {
        self.each[index] = moment;
        let block = index / BLOCK;
        let first = first_of(self.each.as_slice(), block);
        self.blocks[block] = first;
    }

    /// The same where there was none from there on.
    pub(crate) fn put(&mut self, index: usize, moment: Option<u64>)
        requires within { index < length self.old }
        requires none { NoneFrom self.old index }
        ensures { self.new ≡ slice_set self.old index moment }
    {
        if moment.is_some() {
            self.each[index] = moment;
            let block = index / BLOCK;
            self.blocks[block] = sooner(self.blocks[block], index, moment);
        }
    }

    /// The first of all, with its index: of those that are the same the one of the least index.
    pub(crate) fn first(&self) -> Option<(usize, u64)>
        ensures { MatchIn self.now 0 (length self.now) result }
    {
        let mut first = None;
        for block in 0..self.blocks.len() {
            first = earlier(first, self.blocks[block]);
        }
        first
    }

    /// The least index from one on at which there is one.
    pub(crate) fn next(&self, from: usize) -> Option<usize>
        ensures some { IfSome result (λ i. (from ≤ i) × (i < length self.now) × IsSome (moment_at self.now i)) }
        ensures before { IfSome result (λ i. NoneIn self.now from i) }
        ensures none { result ≡ None → NoneIn self.now from (length self.now) }
    {
        let mut index = from;
        while index < self.each.len() {
            if self.each[index].is_some() {
                return Some(index);
            }
            if index % BLOCK == 0 && self.blocks[index / BLOCK].is_none() {
                index = index.saturating_add(BLOCK);
            } else {
                index += 1;
            }
        }
        None
    }
}
