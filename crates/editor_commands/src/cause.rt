//! Why a command for editors did not end well.

ghost use Rattle.std.specs.Prelude.{◌≡◌};
ghost use Rattle.command_ends.specs.declared.fault.Fault.TheVariants.{OutOfMemory, CannotWrite};
ghost use Rattle.editor_commands.specs.Ends.{end_in};
ghost use Rattle.editor_commands.specs.declared.cause.EditorFault.TheVariants.{Other};

use command_ends::{CommandFault, End, Fault};
use std::alloc::AllocError;
use std::fmt;
use streams::CannotWrite;
use tape_frames::TapeFault;
use text_tape::{PunchError, PunchFault};
use text_words::TextPlace;

/// Why a command for editors did not end well.
#[derive(Drop)]
pub enum EditorFault<'a> {
    /// What any command tells in the same words.
    Other(Fault<'a>),
    /// No frame means this piece of the text, which stands at this place.
    NoCode { piece: String, place: TextPlace },
    /// A word of the text can't be punched, of which no piece is told: a brace is not closed, or the tape would be too long.
    Text(PunchFault),
    /// A text has no word.
    EmptyText,
    /// This byte of a tape is above 63, and none before it is.
    NoFrame { at: usize, byte: u8 },
}

impl<'a> From<Fault<'a>> for EditorFault<'a> {
    ghost from_gives = { λ fault e. e ≡ Other fault };

    fn from(fault: Fault<'a>) -> EditorFault<'a> {
        EditorFault::Other(fault)
    }
}

impl<'a> From<AllocError> for EditorFault<'a> {
    ghost from_gives = { λ _ e. e ≡ Other OutOfMemory };

    fn from(_error: AllocError) -> EditorFault<'a> {
        EditorFault::Other(Fault::OutOfMemory)
    }
}

impl<'a> From<CannotWrite> for EditorFault<'a> {
    ghost from_gives = { λ _ e. e ≡ Other CannotWrite };

    fn from(_error: CannotWrite) -> EditorFault<'a> {
        EditorFault::Other(Fault::CannotWrite)
    }
}

impl<'a> fmt::Display for EditorFault<'a> {
    fn fmt<W: fmt::Write>(&self, f: &mut fmt::Formatter<W>) -> fmt::Result {
        match self {
            EditorFault::Other(fault) => write!(f, "{fault}"),
            EditorFault::Text(fault) => write!(f, "{fault}"),
            EditorFault::EmptyText => write!(f, "{}", PunchError::Empty),
            EditorFault::NoFrame { at, byte } => {
                let fault = Fault::of_tape(TapeFault::BadFrame { at: *at });
                write!(
                    f,
                    "{fault}\nbyte {byte} is no frame: circuitd punch makes a tape of a text"
                )
            }
            EditorFault::NoCode { piece, place } => {
                let (line, column) = (place.line, place.column);
                write!(
                    f,
                    "text: no code for {piece} at line {line} column {column}"
                )
            }
        }
    }
}

impl<'a> CommandFault for EditorFault<'a> {
    ghost ends_as = { end_in };

    fn end(&self) -> End {
        match self {
            EditorFault::Other(fault) => fault.end(),
            _ => End::Input,
        }
    }
}
