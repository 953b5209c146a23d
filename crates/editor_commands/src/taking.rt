//! The texts and tapes of editors: taken, and told where they are none.

ghost use Rattle.std.specs.Prelude.{◌≡◌};
ghost use Rattle.command_ends.specs.Ends.{IsOfInput};
ghost use Rattle.editor_commands.specs.Ends.{end_in, Gives};
ghost use Rattle.text_tape.specs.Punching.{IsPunchedBy};

use crate::cause::EditorFault;
use command_ends::Fault;
use std::alloc::{AllocError, Global};
use std::str;
use tape_frames::{Tape, TapeFault};
use text_tape::{PunchCause, PunchError, PunchFault, PunchedBy, punch};
use text_words::TextPlace;

/// The most bytes of a piece that are told. A name of a matrix has 8 and two braces, so no more is read of what has no code.
const TOLD: usize = 20;

/// The bytes of a text from a place on, as many as there are of so many.
fn bytes_at(text: &[u8], at: usize, len: usize) -> &[u8] {
    let (_, rest) = text.split_at(at.min(text.len()));
    let (piece, _) = rest.split_at(len.min(rest.len()));
    piece
}

/// A piece of a text as it is told: in quotes where it prints, else its byte by its number.
fn piece_text(alloc: Global, piece: &[u8]) -> Result<String, AllocError> {
    match piece {
        [byte] if *byte < 33 || *byte > 126 => format!(in alloc; "byte {byte}"),
        _ => {
            let shown = str::from_utf8(bytes_at(piece, 0, TOLD)).unwrap_or("");
            let more = if piece.len() > TOLD { ".." } else { "" };
            format!(in alloc; "\"{shown}{more}\"")
        }
    }
}

/// The first fault of a text, as it is told.
fn text_fault<'a>(alloc: Global, text: &[u8], fault: PunchFault) -> EditorFault<'a>
    ensures { IsOfInput (end_in result) }
{
    let PunchCause::NoCode { len } = fault.cause else {
        return EditorFault::Text(fault);
    };
    let place = TextPlace {
        line: fault.line,
        column: fault.column,
    };
    match piece_text(alloc, bytes_at(text, fault.at, len)) {
        Ok(piece) => EditorFault::NoCode { piece, place },
        Err(error) => EditorFault::from(error),
    }
}

/// The frames of a text.
pub(crate) fn punched<'a>(
    alloc: Global,
    by: &PunchedBy<'_>,
    text: &[u8],
) -> Result<Vec<u8>, EditorFault<'a>>
    ensures { Gives result (λ tape. IsPunchedBy by.now text.now tape.items) }
{
    match punch(alloc, by, text) {
        Ok(tape) => Ok(tape),
        Err(PunchError::Fault(fault)) => Err(text_fault(alloc, text, fault)),
        Err(PunchError::Empty) => Err(EditorFault::EmptyText),
        Err(PunchError::OutOfMemory) => Err(EditorFault::Other(Fault::OutOfMemory)),
    }
}

/// The tape of bytes, one frame a byte.
pub(crate) fn tape_of<'a>(alloc: Global, bytes: &[u8]) -> Result<Tape, EditorFault<'a>>
    ensures { Gives result (λ tape. tape ≡ bytes.now) }
{
    match Tape::from_bytes(alloc, bytes) {
        Ok(tape) => Ok(tape),
        Err(TapeFault::BadFrame { at }) => {
            let byte = match bytes_at(bytes, at, 1) {
                [byte] => *byte,
                _ => 0,
            };
            Err(EditorFault::NoFrame { at, byte })
        }
        Err(fault) => Err(EditorFault::Other(Fault::of_tape(fault))),
    }
}
