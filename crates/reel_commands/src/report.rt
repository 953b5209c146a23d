//! What `import` tells of a reel.

ghost use Rattle.std.specs.Prelude.{◌≡◌, ◌++◌, decimal, OnOk, IfOk};
ghost use Rattle.std.specs.Io.KnownBytes.{Appends};
ghost use Rattle.reel_commands.specs.Ends.{Gives};
ghost use Rattle.reel_commands.specs.Report.{len_of, is_long, warning, tape_line, lines_from, foot_text, import_text, are_tapes};

use crate::cause::ReelFault;
use crate::importing::Imported;
use crate::outputs::put_whole;
use columns::put_digits;
use reel::{RollPiece, tape_name};
use std::alloc::{AllocError, Global};
use std::io::Write;
use tape_frames::MAX_FRAMES;

/// How many frames a piece has.
fn len_of(piece: RollPiece) -> usize
    ensures { result ≡ len_of piece }
{
    piece.to.saturating_sub(piece.from)
}

/// Whether a piece is longer than a tape may be.
fn is_long(piece: RollPiece) -> bool
    ensures { result ≡ is_long piece }
{
    len_of(piece) > MAX_FRAMES
}

/// What is told of a piece that is too long.
#[tactic(auto, unfolding(crate::specs::Report::warning))]
fn warning(piece: RollPiece) -> &'static str
    ensures { result.now ≡ warning piece }
{
    if is_long(piece) {
        ", too long: a tape has at most 16384"
    } else {
        ""
    }
}

/// Writes the line of a tape.
fn put_line(
    alloc: Global,
    text: &mut Vec<u8>,
    number: usize,
    piece: RollPiece,
) -> Result<(), AllocError>
    ensures { OnOk result (text.new.items ≡ text.old.items ++ tape_line number piece) }
{
    text.extend_from_slice(tape_name(alloc, number)?.as_bytes())?;
    text.extend_from_slice(b" frames ")?;
    put_digits(text, len_of(piece))?;
    text.extend_from_slice(b" from ")?;
    put_digits(text, piece.from)?;
    text.extend_from_slice(warning(piece).as_bytes())?;
    text.extend_from_slice(b"\n")
}

/// Writes the lines of tapes.
fn put_lines(alloc: Global, text: &mut Vec<u8>, tapes: &[RollPiece]) -> Result<(), AllocError>
    ensures { OnOk result (text.new.items ≡ text.old.items ++ lines_from 1 tapes.now) }
{
    for (before, tape) in tapes.iter().enumerate() {
        put_line(alloc, text, before + 1, *tape)?;
    }
    Ok(())
}

/// Writes words, and a number behind them.
fn put_named(text: &mut Vec<u8>, words: &[u8], number: usize) -> Result<(), AllocError>
    ensures { OnOk result (text.new.items ≡ text.old.items ++ (words.now ++ decimal number)) }
{
    text.extend_from_slice(words)?;
    put_digits(text, number)
}

/// Writes the last line.
#[tactic(auto, unfolding(crate::specs::Report::foot_text))]
fn put_foot(text: &mut Vec<u8>, tapes: usize, frames: usize) -> Result<(), AllocError>
    ensures { OnOk result (text.new.items ≡ text.old.items ++ foot_text tapes frames) }
{
    put_named(text, b"tapes: ", tapes)?;
    put_named(text, b", frames in the reel: ", frames)?;
    text.extend_from_slice(b"\n")?;
    Ok(())
}

/// What is told of a reel.
fn import_text(alloc: Global, done: &Imported) -> Result<Vec<u8>, AllocError>
    ensures { IfOk result (λ text. text.items ≡ import_text done.now) }
{
    let mut text = Vec::new(alloc);
    put_lines(alloc, &mut text, &done.tapes)?;
    put_foot(&mut text, done.tapes.len(), done.frames)?;
    Ok(text)
}

/// Writes what became of a reel: a line for each tape, and how many there are.
pub fn put_import<'a, W: Write>(
    alloc: Global,
    done: &Imported,
    out: &mut W,
) -> Result<(), ReelFault<'a>>
    ensures { Gives result (λ _. Appends (W.contents out.old) (W.contents out.new) (import_text done.now)) }
{
    let text = import_text(alloc, done)?;
    put_whole(&text, out)
}

/// Whether none of these pieces is longer than a tape may be.
pub fn are_tapes(pieces: &[RollPiece]) -> bool
    ensures { result ≡ are_tapes pieces.now }
{
    match pieces {
        [] => true,
        [piece, _rest @ ..] if is_long(*piece) => false,
        [_piece, rest @ ..] => are_tapes(rest),
    }
}
