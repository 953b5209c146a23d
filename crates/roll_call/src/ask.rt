//! What is asked, and what asks for it.

ghost use Rattle.std.specs.Prelude.{◌≡◌};
ghost use Rattle.rolls.specs.Bodies.{said};
ghost use Rattle.roll_call.specs.Topics.{is_same, question_of};

use rolls::{Page, RollBody};

/// An ask of a member that waits to be answered.
#[derive(Clone, Copy, Default)]
pub(crate) struct Ask {
    /// The number of the asker's, which the answer repeats.
    pub asked: u32,
    /// The page that is asked for: which numbers of it have a vote. None where how many of each page have one is asked.
    pub page: Option<Page>,
}

/// Whether both are the counts, or one page.
pub(crate) fn is_same(page: &Option<Page>, other: &Option<Page>) -> bool
    ensures { result ≡ is_same page.now other.now }
{
    match page {
        Some(page) => match other {
            Some(other) => page.get() == other.get(),
            None => false,
        },
        None => other.is_none(),
    }
}

/// What is said to ask for a page, or for the counts.
pub(crate) fn question_of(page: &Option<Page>) -> RollBody
    ensures { said result ≡ question_of page.now }
{
    match page {
        Some(page) => RollBody::PageAsked(*page),
        None => RollBody::CountsAsked,
    }
}
