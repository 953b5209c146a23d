//! A file leaves the offers behind the text beside it.

ghost use Rattle.std.specs.Prelude.{◌≡◌, ◌∷◌, [], List, Option, None, OnOk, OnErr, option_map};
ghost use Rattle.folders.specs.Steps.{Adds, Begins, MovesBehind, Step, moved, steps_of, wrote_text};

use crate::fault::FolderFault;
use crate::leaving::Leaving;
use std::alloc::Global;

/// What lets files leave the offers, step by step.
pub trait Mover {
    // What was done, in order, where that is known: texts that were written, and files that were moved.
    ghost steps: { Self → Option (List Step) } = { λ _. None };

    /// Writes a text beside where a file goes.
    fn write_text(
        &mut self,
        alloc: Global,
        leaving: Leaving<'_>,
        text: &str,
    ) -> Result<(), FolderFault>
        ensures ok { OnOk result (Adds (steps self.old) (steps self.new) (wrote_text leaving.entry.name.now leaving.entry.to text.now ∷ [])) }
        ensures err { OnErr result (Adds (steps self.old) (steps self.new) []) };

    /// Moves the file there. Where it fails it may have been moved all the same.
    fn move_file(&mut self, alloc: Global, leaving: Leaving<'_>) -> Result<(), FolderFault>
        ensures ok { OnOk result (Adds (steps self.old) (steps self.new) (moved leaving.entry.name.now leaving.entry.to ∷ [])) }
        ensures err { OnErr result (Begins (steps self.old) (steps self.new) (moved leaving.entry.name.now leaving.entry.to ∷ [])) };
}

/// Moves a file of the offers once the text that is to lie beside it is written; where that can't be written, it stays.
#[tactic(auto, using(crate::proofs::Steps::moved_alone, crate::proofs::Steps::moved_behind, crate::proofs::Steps::not_moved))]
pub fn move_behind<M: Mover>(
    alloc: Global,
    mover: &mut M,
    leaving: Leaving<'_>,
    beside: Option<&str>,
) -> Result<(), FolderFault>
    ensures { MovesBehind (M.steps mover.old) (M.steps mover.new) (steps_of leaving.entry.name.now leaving.entry.to (option_map (λ t. t.now) beside.entry)) result }
{
    if let Some(text) = beside {
        mover.write_text(alloc, leaving, text)?;
    }
    mover.move_file(alloc, leaving)
}
