//! What went out can't be noted, and when it is told again.

ghost use Rattle.std.specs.Prelude.{◌≡◌, None, codes};
ghost use Rattle.plant_log.specs.Words.{folder_text};
ghost use Rattle.plant_log.specs.Telling.{TellsIf};
ghost use Rattle.plant_log.specs.Standing.{IsToldAnew, Stands};

use folders::FolderFault;
use plant_log::{Standing, is_told_anew, tell_fault, told_after};
use std::alloc::Global;
use std::io::Write;

/// When it was told last that what went out can't be noted, and why.
#[derive(Drop)]
pub struct Unnoted {
    last: Option<Standing>,
}

impl Unnoted {
    /// Nothing was told yet.
    pub fn new() -> Unnoted
        ensures { result.last ≡ None }
    {
        Unnoted { last: None }
    }

    /// What went out is noted: the next fault is told at once.
    pub fn noted(&mut self)
        ensures { self.new.last ≡ None }
    {
        self.last = None;
    }

    /// Tells that what went out can't be noted, at a moment in milliseconds, where that is told anew: it was not told since it could be noted
    /// last, it is another fault, or an hour has passed.
    pub fn cannot_note<E: Write>(
        &mut self,
        alloc: Global,
        fault: FolderFault,
        now: u64,
        err: &mut E,
    )
        ensures tells { TellsIf (IsToldAnew self.old.last fault now) (folder_text (codes "cannot write .released") fault) (E.contents err.old) (E.contents err.new) }
        ensures stands { Stands self.old.last fault now self.new.last }
    {
        let last = self.last;
        self.last = Some(told_after(last, fault, now));
        if is_told_anew(last, fault, now) {
            tell_fault(alloc, "cannot write .released", fault, err);
        }
    }
}
