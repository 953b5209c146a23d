//! What is passed over among the offers, by name, and why.

ghost use Rattle.std.specs.Prelude.{◌≡◌, ◌↔◌, [], IsTrue, string_bytes};
ghost use Rattle.std.specs.BTreeMap.{get_by_text};
ghost use Rattle.plant_log.specs.Telling.{TellsIf};
ghost use Rattle.plant_log.specs.Passing.{IsPassingTold, KeepsOne, Remembers, TellsPassed, passing_text};

use crate::line::FileTrouble;
use crate::standing::{Standing, is_told_anew, told_after};
use crate::writing::tell_file;
use folders::{PassedOver, is_left};
use std::alloc::Global;
use std::collections::BTreeMap;
use std::io::Write;
use std::mem;

/// What was passed over at the last look, and what was told last of it.
#[derive(Drop)]
pub(crate) struct Passed {
    alloc: Global,
    kept: BTreeMap<String, Standing>,
    /// The same of the look whose names are being told.
    next: BTreeMap<String, Standing>,
}

/// What was told last of what has this name.
fn last_of(kept: &BTreeMap<String, Standing>, name: &str) -> Option<Standing>
    ensures { result ≡ get_by_text kept.now name.now }
{
    match kept.get(name) {
        Some(standing) => Some(*standing),
        None => None,
    }
}

/// Keeps in mind what was told of this last. Where there is no memory for it, it is told again at the next look.
fn keep(
    kept: &BTreeMap<String, Standing>,
    next: &mut BTreeMap<String, Standing>,
    each: PassedOver,
    now: u64,
)
    ensures { KeepsOne kept.now now each next.old next.new }
{
    let last = last_of(kept, each.name.as_str());
    let standing = told_after(last, each.fault, now);
    let _ = next.insert(each.name, standing);
}

/// Keeps in mind what was told of these.
fn keep_all(
    kept: &BTreeMap<String, Standing>,
    next: &mut BTreeMap<String, Standing>,
    others: Vec<PassedOver>,
    now: u64,
)
    ensures { Remembers kept.now now others.items next.old next.new }
{
    for each in others {
        keep(kept, next, each, now);
    }
}

impl Passed {
    /// Nothing was, yet.
    pub(crate) fn new(alloc: Global) -> Passed
        ensures kept { result.kept.entries ≡ [] }
        ensures next { result.next.entries ≡ [] }
    {
        Passed {
            alloc,
            kept: BTreeMap::new(alloc),
            next: BTreeMap::new(alloc),
        }
    }

    /// Whether it is told at a moment that this is passed over: not where it is left alone.
    fn is_told(&self, each: &PassedOver, now: u64) -> bool
        ensures { IsTrue result ↔ IsPassingTold self.now.kept now each.now }
    {
        let name = each.name.as_str();
        !is_left(name) && is_told_anew(last_of(&self.kept, name), each.fault, now)
    }

    /// Tells it, where it is.
    fn tell<E: Write>(&self, each: &PassedOver, now: u64, err: &mut E)
        ensures { TellsIf (IsPassingTold self.now.kept now each.now) (passing_text each.now) (E.contents err.old) (E.contents err.new) }
    {
        if self.is_told(each, now) {
            let file = FileTrouble {
                what: "cannot read",
                name: each.name.as_str(),
                fault: each.fault,
            };
            tell_file(self.alloc, &file, err);
        }
    }

    /// The same of all these, in turn.
    fn tell_all<E: Write>(&self, others: &[PassedOver], now: u64, err: &mut E)
        ensures { TellsPassed self.now.kept now others.now (E.contents err.old) (E.contents err.new) }
    {
        for each in others {
            self.tell(each, now, err);
        }
    }

    /// Tells of these, which are some of what a look passed over, what is to be told at a moment in milliseconds, and keeps them in mind.
    pub(crate) fn see<E: Write>(&mut self, others: Vec<PassedOver>, now: u64, err: &mut E)
        ensures tells { TellsPassed self.old.kept now others.items (E.contents err.old) (E.contents err.new) }
        ensures rest { self.new ≡ record self.old { next = self.new.next } }
        ensures next { Remembers self.old.kept now others.items self.old.next self.new.next }
    {
        self.tell_all(others.as_slice(), now, err);
        keep_all(&self.kept, &mut self.next, others, now);
    }

    /// The look passed nothing else over: what was told of anything else is forgotten.
    pub(crate) fn end(&mut self)
        ensures kept { self.new.kept ≡ self.old.next }
        ensures next { self.new.next.entries ≡ [] }
        ensures rest { self.new ≡ record self.old { kept = self.new.kept; next = self.new.next } }
    {
        self.kept = mem::replace(&mut self.next, BTreeMap::new(self.alloc));
    }
}
