//! Why a text is not punched.

ghost use Rattle.std.specs.Prelude.{◌≡◌, Some};
ghost use Rattle.text_tape.specs.FaultTexts.{cause_word, error_text, fault_text};

use std::fmt;

/// What keeps a word from being punched.
#[derive(Clone, Copy, PartialEq, Eq)]
pub enum PunchCause {
    /// No frame of the table means what these bytes of the text say, or they say nothing.
    NoCode { len: usize },
    /// A brace is not closed before the next byte that does not print.
    NoEnd,
    /// The tape would be longer than one may be.
    TooLong,
}

/// The first word of a text that is not punched.
#[derive(Clone, Copy, PartialEq, Eq)]
pub struct PunchFault {
    /// Where it begins, in bytes from 0.
    pub at: usize,
    /// Its line, from 1.
    pub line: usize,
    /// Its column, in bytes from 1.
    pub column: usize,
    pub cause: PunchCause,
}

/// Why there is no tape of a text.
#[derive(Clone, Copy, PartialEq, Eq)]
pub enum PunchError {
    /// A word of it cannot be punched.
    Fault(PunchFault),
    /// There is no word in it.
    Empty,
    /// The frames could not be kept.
    OutOfMemory,
}

/// What keeps a word from being punched, in a few words.
fn cause_word(cause: PunchCause) -> &'static str
    ensures { result.now ≡ cause_word cause }
{
    match cause {
        PunchCause::NoCode { .. } => "no code",
        PunchCause::NoEnd => "no end of a word",
        PunchCause::TooLong => "too long",
    }
}

impl fmt::Display for PunchFault {
    ghost output = { λ e. Some (fault_text e) };

    fn fmt<W: fmt::Write>(&self, f: &mut fmt::Formatter<W>) -> fmt::Result {
        let what = cause_word(self.cause);
        write!(
            f,
            "text: {what} at line {} column {}",
            self.line, self.column
        )
    }
}

impl fmt::Display for PunchError {
    ghost output = { λ e. Some (error_text e) };

    fn fmt<W: fmt::Write>(&self, f: &mut fmt::Formatter<W>) -> fmt::Result {
        match self {
            PunchError::Fault(fault) => write!(f, "{fault}"),
            PunchError::Empty => write!(f, "text: empty"),
            PunchError::OutOfMemory => write!(f, "out of memory"),
        }
    }
}
