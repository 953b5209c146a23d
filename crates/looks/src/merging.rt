//! A look at the files whose names ask for nothing: what was found beside what was known, both in order of their names, in one pass that goes
//! on over as many turns as it takes.

ghost use Rattle.std.specs.Prelude.{◌≡◌, ◌↔◌, IfErr, IfOk, IsTrue};
ghost use Rattle.looks.specs.Merging.{begun, fewer};
ghost use Rattle.looks.specs.Strays.{first_known, first_stands, from, known_where, left_where, past, AreInOrder};

use crate::looking::MOST_NAMES;
use crate::sighting::{Sighting, Stray};
use folders::Stamp;
use std::alloc::Global;
use std::cmp::Ordering;
use std::collections::BTreeMap;
use std::marker::Model;

/// How the first of the files stands to a name; behind it, where there is none.
fn first_stands(rest: &[Stray], name: &str) -> Ordering
    ensures { result ≡ first_stands name.now rest.now }
{
    match rest.first() {
        Some(first) => first.name.as_str().cmp(name),
        None => Ordering::Greater,
    }
}

/// The files from the first on that does not stand before a name, and how that one stands to it.
fn skip_to<'a>(rest: &'a [Stray], name: &str) -> (&'a [Stray], Ordering)
    ensures rest { result.0.now ≡ from name.now rest.now }
    ensures stands { result.1 ≡ first_stands name.now result.0.now }
{
    let mut rest = rest;
    let mut stands = first_stands(rest, name);
    while stands == Ordering::Less {
        rest = &rest[1..];
        stands = first_stands(rest, name);
    }
    (rest, stands)
}

/// What is known of a file to which the first stands so, and the files behind those that are done with then.
fn met(rest: &[Stray], stands: Ordering) -> (Option<Sighting>, &[Stray])
    ensures known { result.0 ≡ known_where stands rest.now }
    ensures left { result.1.now ≡ left_where stands rest.now }
{
    match (stands, rest.first()) {
        (Ordering::Equal, Some(first)) => (Some(first.sighting), &rest[1..]),
        _ => (None, rest),
    }
}

/// What is known of the file of this name, and those of the files that stand behind it.
fn meet<'a>(rest: &'a [Stray], name: &str) -> (Option<Sighting>, &'a [Stray])
    ensures known { result.0 ≡ first_known name.now (from name.now rest.now) }
    ensures left { result.1.now ≡ past name.now (from name.now rest.now) }
{
    let (first, stands) = skip_to(rest, name);
    met(first, stands)
}

/// The files after a look, and those that were known before it.
#[derive(Drop)]
pub(crate) struct Merged {
    pub(crate) files: Vec<Stray>,
    pub(crate) known: Vec<Stray>,
    /// The moment of the look.
    pub(crate) moment: u64,
}

/// What a look found, put beside what was known, as far as it is.
#[derive(Drop)]
pub struct Merging {
    /// What was known.
    known: Vec<Stray>,
    /// How many of those stand before all that is left.
    past: usize,
    /// What was found, and is not put beside it yet.
    left: BTreeMap<String, Stamp>,
    /// What was found and is, each with what is known of it. There is room for all of it.
    files: Vec<Stray>,
    /// The moment of the look.
    moment: u64,
}

impl Model for Merging {
    ghost use Rattle.std.specs.Prelude.{◌++◌, length};
    ghost use Rattle.looks.specs.Merging.{IsMerging, MergingValue};
    ghost use Rattle.looks.specs.Strays.{looked};

    ghost Value = { MergingValue };

    ghost view = { λ m. record { known = m.known.items; moment = m.moment; files = m.files.items ++ looked m.known.items m.moment m.left.entries; left = length m.left.entries } };

    ghost invariant = { λ m. IsMerging m.known m.past m.left.entries m.files m.moment };
}

impl Merging {
    /// What a look found at a moment, of which nothing is put beside what was known yet; where there is no memory for it, what was known comes
    /// back.
    pub(crate) fn begin(
        alloc: Global,
        known: Vec<Stray>,
        found: BTreeMap<String, Stamp>,
        now: u64,
    ) -> Result<Merging, Vec<Stray>>
        requires { AreInOrder known.items }
        ensures ok { IfOk result (λ m. m ≡ begun known.items now found.entries) }
        ensures err { IfErr result (λ files. files.items ≡ known.items) }
    {
        match Vec::with_capacity(alloc, found.len()) {
            Ok(files) => Ok(Merging {
                known,
                past: 0,
                left: found,
                files,
                moment: now,
            }),
            Err(_) => Err(known),
        }
    }

    /// Whether all of it is put beside what was known.
    pub(crate) fn is_done(&self) -> bool
        ensures { IsTrue result ↔ (self.now.left ≡ 0) }
    {
        self.left.is_empty()
    }

    /// Puts the next file beside what was known, if one is left.
    fn step(&mut self)
        ensures { self.new ≡ fewer 1 self.old }
    {
        if let Some((name, stamp)) = self.left.pop_first() {
            let (known, rest) = meet(&self.known[self.past..], name.as_str());
            let sighting = Sighting::after(known, stamp, self.moment);
            self.past = self.known.len() - rest.len();
            let _ = self.files.push(Stray { name, sighting });
        }
    }

    /// Puts the next files beside what was known, as many as a turn of a look finds at most.
    pub(crate) fn go_on(&mut self)
        ensures { self.new ≡ fewer 512 self.old }
    {
        for _ in 0..MOST_NAMES {
            self.step();
        }
    }

    /// The files, and what was known, where all of it is put beside that; and the moment of the look.
    pub(crate) fn end(self) -> Merged
        requires { self.left ≡ 0 }
        ensures files { result.files.items ≡ self.files }
        ensures order { AreInOrder result.files.items }
        ensures known { result.known.items ≡ self.known }
        ensures moment { result.moment ≡ self.moment }
    {
        Merged {
            files: self.files,
            known: self.known,
            moment: self.moment,
        }
    }
}
