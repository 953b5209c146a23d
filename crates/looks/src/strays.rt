//! The files among the offers whose names ask for nothing: once they are whole, they are no offers.

ghost use Rattle.std.specs.Prelude.{◌≡◌, drop, option_copied, is_some};
ghost use Rattle.std.specs.List.{position_from};
ghost use Rattle.offers.specs.Book.{still_for};
ghost use Rattle.looks.specs.Strays.{first_ripe, next_ripe, none_known, ripe_at, with_next};
ghost use Rattle.looks.specs.TakingIn.{GoesOn, IsBegun};
ghost use Rattle.looks.specs.Sightings.{is_ripe, moved, put_off};

use crate::merging::{Merged, Merging};
use crate::sighting::Stray;
use folders::{FolderFault, Stamp};
use offers::still_for;
use std::alloc::{AllocError, Global};
use std::collections::BTreeMap;
use std::marker::Model;
use std::mem;

/// All such files, in order of their names, as they were found at the last look. Moments are in milliseconds.
#[derive(Drop)]
pub struct Strays {
    alloc: Global,
    files: Vec<Stray>,
    /// The last look.
    looked: u64,
    /// How long a file has to stay as it is.
    still: u64,
    /// From which file on it is left to see whether it is moved.
    next: usize,
}

/// How far it is taken in which files a look found.
#[derive(Drop)]
pub enum TakenIn {
    /// Some of it is left.
    Partly(Merging),
    /// All of it is; these were known before.
    Wholly(Vec<Stray>),
}

impl Model for Strays {
    ghost use Rattle.looks.specs.Strays.{StraysValue, AreInOrder};

    ghost Value = { StraysValue };

    ghost view = { λ s. record { files = s.files.items; looked = s.looked; still = s.still; next = s.next } };

    ghost invariant = { λ s. AreInOrder s.files.items };
}

/// The place of the first file that is moved, from one on, where a file has to stay so long as it is, and that was the last look.
fn first_ripe(files: &[Stray], from: usize, still: u64, looked: u64) -> Option<usize>
    ensures { result ≡ position_from (λ s. is_ripe still looked s.sighting) from (drop from files.now) }
{
    for place in from..files.len() {
        if files[place].sighting.is_ripe(still, looked) {
            return Some(place);
        }
    }
    None
}

impl Strays {
    /// None is known yet. A file is whole once two looks found it as it is, half a second apart.
    pub fn new(alloc: Global) -> Strays
        ensures { result ≡ none_known 500 }
    {
        Strays::over(alloc, false)
    }

    /// The same over a folder to which files come only by being renamed, or not only so: where they do, one look that found a file is enough.
    pub fn over(alloc: Global, renamed: bool) -> Strays
        ensures { result ≡ none_known (still_for renamed) }
    {
        Strays {
            alloc,
            files: Vec::new(alloc),
            looked: 0,
            still: still_for(renamed),
            next: 0,
        }
    }

    /// Begins to take in which of them a look found, at a moment: until all of it is taken in, none of them is moved. Where there is no memory
    /// for it, all stays as it was.
    pub fn begin(&mut self, found: BTreeMap<String, Stamp>, now: u64) -> Result<Merging, AllocError>
        ensures { IsBegun found.entries now self.old self.new result }
    {
        let known = mem::replace(&mut self.files, Vec::new(self.alloc));
        match Merging::begin(self.alloc, known, found, now) {
            Ok(merging) => Ok(merging),
            Err(known) => {
                self.files = known;
                Err(AllocError)
            }
        }
    }

    /// Goes on with it, so far that no turn takes long. Once all is taken in, a file that is as it was stays known, one that was changed is seen
    /// anew, and one that is no longer found is forgotten; those that were known before are handed out, so that they need not be let go of in
    /// the same turn.
    pub fn go_on(&mut self, merging: Merging) -> TakenIn
        ensures { GoesOn merging self.old result self.new }
    {
        let mut merging = merging;
        merging.go_on();
        if !merging.is_done() {
            return TakenIn::Partly(merging);
        }
        let Merged {
            files,
            known,
            moment,
        } = merging.end();
        self.files = files;
        self.looked = moment;
        self.next = 0;
        TakenIn::Wholly(known)
    }

    /// Whether one of them is to be moved, from where it was left on.
    pub fn find(&mut self) -> bool
        ensures found { result ≡ is_some (first_ripe self.old) }
        ensures next { self.new ≡ record self.old { next = next_ripe self.old } }
    {
        let first = first_ripe(self.files.as_slice(), self.next, self.still, self.looked);
        self.next = first.unwrap_or(self.files.len());
        first.is_some()
    }

    /// The one that is to be moved, if one is; the next is then to be found.
    pub fn first(&self) -> Option<&Stray>
        ensures { option_copied result ≡ ripe_at self.now }
    {
        match self.files.get(self.next) {
            Some(file) if file.sighting.is_ripe(self.still, self.looked) => Some(file),
            _ => None,
        }
    }

    /// It was moved.
    pub fn moved(&mut self)
        ensures { self.new ≡ with_next moved self.old }
    {
        if self.next < self.files.len() {
            let stray = &mut self.files[self.next];
            stray.sighting = stray.sighting.moved();
        }
    }

    /// It could not be moved at a moment, for this fault, which was told where it is to be.
    pub fn could_not(&mut self, fault: FolderFault, now: u64)
        ensures { self.new ≡ with_next (put_off fault now) self.old }
    {
        if self.next < self.files.len() {
            let file = &mut self.files[self.next];
            file.sighting = file.sighting.put_off(fault, now);
        }
    }
}
