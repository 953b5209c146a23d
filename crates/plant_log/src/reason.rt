//! Why a file is no offer, in the words of the log and of the text beside it.

ghost use Rattle.std.specs.Prelude.{◌≡◌};
ghost use Rattle.plant_log.specs.Words.{reason_text};

use command_ends::Fault;
use offers::OfferFault;
use refusals::RefusalText;
use std::fmt;

/// Why a file is no offer whose name asks for nothing.
pub const NO_NUMBER: &str = "no number";

/// Why a file is no offer, though its name asks for something.
#[derive(Clone, Copy)]
pub struct ReasonText(pub OfferFault);

impl fmt::Display for ReasonText {
    ghost output = { λ r. reason_text r.0 };

    fn fmt<W: fmt::Write>(&self, f: &mut fmt::Formatter<W>) -> fmt::Result {
        match self.0 {
            OfferFault::Tape(fault) => write!(f, "{}", Fault::of_tape(fault)),
            OfferFault::Text(fault) => write!(f, "{fault}"),
            OfferFault::LongText => f.write_str("input too long"),
            OfferFault::NoTexts => f.write_str(NO_NUMBER),
            OfferFault::Step(refusal) => write!(f, "{}", RefusalText(refusal)),
        }
    }
}
