//! How a step ended, as it is printed.

ghost use Rattle.std.specs.Prelude.{◌≡◌, Some};
ghost use Rattle.rehearse_command.specs.Words.{outcome_text, refused_text};

use crate::NoteText;
use refusals::RefusalText;
use rows_saved::RowsFault;
use station::StepRefusal;
use std::fmt;
use world::Outcome;

/// Why a member did not take a step. Two refusals stop it.
#[derive(Clone, Copy)]
struct RefusedText(StepRefusal);

impl fmt::Display for RefusedText {
    ghost output = { λ r. Some (refused_text r.0) };

    fn fmt<W: fmt::Write>(&self, f: &mut fmt::Formatter<W>) -> fmt::Result {
        let reason = RefusalText(self.0);
        match self.0 {
            StepRefusal::OutOfMemory => f.write_str("stopped memory"),
            StepRefusal::Store(RowsFault::OutOfMemory) => f.write_str("stopped memory"),
            StepRefusal::Store(_) => f.write_str("stopped store"),
            _ => write!(f, "refused {reason}"),
        }
    }
}

/// What became of a member's step.
#[derive(Clone, Copy)]
pub(crate) struct OutcomeText(pub Outcome);

impl fmt::Display for OutcomeText {
    ghost output = { λ o. Some (outcome_text o.0) };

    fn fmt<W: fmt::Write>(&self, f: &mut fmt::Formatter<W>) -> fmt::Result {
        match self.0 {
            Outcome::Done(note) => fmt::Display::fmt(&NoteText(note), f),
            Outcome::Refused(refusal) => fmt::Display::fmt(&RefusedText(refusal), f),
            Outcome::Restarted => f.write_str("restarted"),
            Outcome::Upgraded => f.write_str("upgraded"),
            Outcome::Armed { saved: true } => f.write_str("armed saved"),
            Outcome::Armed { saved: false } => f.write_str("armed unsaved"),
        }
    }
}
