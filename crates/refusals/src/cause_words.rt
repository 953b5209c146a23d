//! The words of causes and refusals, as they are printed.

ghost use Rattle.std.specs.Prelude.{◌≡◌, Some};
ghost use Rattle.refusals.specs.RefusalWords.{refusal_text, step_word};
ghost use Rattle.refusals.specs.CauseWords.{cause_text};

use crate::line_refusal::Refusal;
use crate::refusal::StepRefusal;
use line_check::{Cause, SetFault};
use std::fmt;

/// A cause with its place, as `unknown-code at 3 line 1`.
#[derive(Clone, Copy)]
pub struct CauseText(pub SetFault);

impl fmt::Display for CauseText {
    ghost output = { λ c. Some (cause_text c.0) };

    fn fmt<W: fmt::Write>(&self, f: &mut fmt::Formatter<W>) -> fmt::Result {
        let (at, line) = (self.0.at, self.0.line);
        match self.0.cause {
            Cause::UnknownCode => write!(f, "unknown-code at {at} line {line}"),
            Cause::NoWidth => write!(f, "no-width at {at} line {line}"),
            Cause::Unfinished => write!(f, "unfinished at {at} line {line}"),
            Cause::Overset { over } => write!(f, "overset {over} at {at} line {line}"),
            Cause::Loose { under } => write!(f, "loose {under} at {at} line {line}"),
        }
    }
}

/// The word for why a station refuses a step.
fn refusal_word(refusal: StepRefusal) -> &'static str
    ensures { result.now ≡ step_word refusal }
{
    match refusal {
        StepRefusal::Stopped => "stopped",
        StepRefusal::BadDatagram(fault) => Refusal::Packet(fault).word(),
        StepRefusal::WrongCircuit => Refusal::WrongCircuit.word(),
        StepRefusal::NotForMe => Refusal::NotForMe.word(),
        StepRefusal::Stranger => "stranger",
        StepRefusal::BadNumber => "bad-number",
        StepRefusal::NoSuchMember => "no-such-member",
        StepRefusal::AlreadyReleased => "already-released",
        StepRefusal::AlreadyOpen => "already-open",
        StepRefusal::WireTooOld => "wire-too-old",
        StepRefusal::TapeFaulty(_) => "tape-faulty",
        StepRefusal::RoundsSpent => "rounds-spent",
        StepRefusal::Store(_) => "store",
        StepRefusal::OutOfMemory => "memory",
    }
}

/// Why a station refuses a step, as `already-open`. A tape that does not set has its cause behind the word.
#[derive(Clone, Copy)]
pub struct RefusalText(pub StepRefusal);

impl fmt::Display for RefusalText {
    ghost output = { λ r. Some (refusal_text r.0) };

    fn fmt<W: fmt::Write>(&self, f: &mut fmt::Formatter<W>) -> fmt::Result {
        let word = refusal_word(self.0);
        match self.0 {
            StepRefusal::TapeFaulty(fault) => write!(f, "{word} {}", CauseText(fault)),
            _ => f.write_str(word),
        }
    }
}
