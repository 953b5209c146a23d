//! What befalls the numbers of a plant.

ghost use Rattle.std.specs.Prelude.{◌≡◌, Some};
ghost use Rattle.plant_log.specs.Words.{event_text};

use ballots::Ballot;
use std::fmt;

/// Something that an operator may want to know, with its number.
#[derive(Clone, Copy)]
pub enum LogEvent {
    /// A ballot was begun.
    Began { number: u32, ballot: Ballot },
    /// The ballots came to no end.
    GaveUp { number: u32, ballot: Ballot },
    /// A majority knows of nothing.
    Nothing { number: u32, ballot: Ballot },
    /// The number was released.
    Released { number: u32 },
    /// What a file asked for is what stands under its number.
    Sent { number: u32 },
    /// It is not.
    Lost { number: u32 },
    /// A search left the offers that found nothing ten times.
    Done { number: u32 },
    /// What was read of a file is in place of what its number is under way for, or was.
    Replaced { number: u32 },
}

impl fmt::Display for LogEvent {
    ghost output = { λ e. Some (event_text e) };

    fn fmt<W: fmt::Write>(&self, f: &mut fmt::Formatter<W>) -> fmt::Result {
        match *self {
            LogEvent::Began { number, ballot } => write!(f, "{number} began {ballot}"),
            LogEvent::GaveUp { number, ballot } => write!(f, "{number} gave-up {ballot}"),
            LogEvent::Nothing { number, ballot } => write!(f, "{number} nothing {ballot}"),
            LogEvent::Released { number } => write!(f, "{number} released"),
            LogEvent::Sent { number } => write!(f, "{number} sent"),
            LogEvent::Lost { number } => write!(f, "{number} lost"),
            LogEvent::Done { number } => write!(f, "done {number}.seek: nothing, ten times"),
            LogEvent::Replaced { number } => write!(f, "{number} replaced while it was under way"),
        }
    }
}
