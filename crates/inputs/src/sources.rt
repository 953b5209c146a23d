//! The files that a command is given: their texts, and what these are taken as.

ghost use Rattle.std.specs.Prelude.{◌≡◌, Ok, IfSome};
ghost use Rattle.toml.specs.Parse.{parse_document};
ghost use Rattle.code_table.specs.Reading.{read_table};
ghost use Rattle.widths.specs.Reading.{read_widths};
ghost use Rattle.tape_frames.specs.Frames.{IsTape};
ghost use Rattle.command_ends.specs.Giving.{Gives};

use code_table::{CodeTable, TableFault};
use command_ends::Fault;
use std::alloc::Global;
use std::io::Read;
use std::str;
use streams::read_input;
use tape_frames::Tape;
use widths::{WidthFault, Widths};

/// All bytes of the input at a path.
pub fn read_text<'a, R: Read>(
    alloc: Global,
    input: &mut R,
    path: &'a str,
) -> Result<Vec<u8>, Fault<'a>>
    ensures { Gives result (λ v. IfSome (R.remaining input.old) (λ xs. v.items ≡ xs)) }
{
    read_input(alloc, input).map_err(|fault| Fault::of_input(fault, path))
}

/// The text of bytes that are UTF-8.
pub fn text_of(bytes: &[u8]) -> Option<&str>
    ensures { IfSome result (λ text. text.now ≡ bytes.now) }
{
    match str::from_utf8(bytes) {
        Ok(text) => Some(text),
        Err(_) => None,
    }
}

/// The code table of a text. What isn't UTF-8 is not TOML.
pub fn table_of<'a>(alloc: Global, bytes: &[u8]) -> Result<CodeTable, Fault<'a>>
    ensures { Gives result (λ table. read_table (parse_document bytes.now) ≡ Ok table) }
{
    let Some(text) = text_of(bytes) else {
        return Err(Fault::of_table(TableFault::NotToml));
    };
    match CodeTable::read(alloc, text) {
        Ok(table) => Ok(table),
        Err(fault) => Err(Fault::of_table(fault)),
    }
}

/// The width file of a text. What isn't UTF-8 is not TOML.
pub fn widths_of<'a>(alloc: Global, bytes: &[u8]) -> Result<Widths, Fault<'a>>
    ensures { Gives result (λ widths. read_widths (parse_document bytes.now) ≡ Ok widths) }
{
    let Some(text) = text_of(bytes) else {
        return Err(Fault::of_widths(WidthFault::NotToml));
    };
    match Widths::read(alloc, text) {
        Ok(widths) => Ok(widths),
        Err(fault) => Err(Fault::of_widths(fault)),
    }
}

/// The tape of a file with one frame per byte.
pub fn tape_of<'a>(alloc: Global, bytes: &[u8]) -> Result<Tape, Fault<'a>>
    ensures { Gives result (λ tape. tape ≡ bytes.now) }
{
    Tape::from_bytes(alloc, bytes).map_err(|fault| Fault::of_tape(fault))
}

/// Reads a code table from the input at a path.
pub fn read_table<'a, R: Read>(
    alloc: Global,
    input: &mut R,
    path: &'a str,
) -> Result<CodeTable, Fault<'a>>
    ensures { Gives result (λ table. IfSome (R.remaining input.old) (λ ts. read_table (parse_document ts) ≡ Ok table)) }
{
    let text = read_text(alloc, input, path)?;
    table_of(alloc, &text)
}

/// Reads a width file from the input at a path.
pub fn read_widths<'a, R: Read>(
    alloc: Global,
    input: &mut R,
    path: &'a str,
) -> Result<Widths, Fault<'a>>
    ensures { Gives result (λ widths. IfSome (R.remaining input.old) (λ ws. read_widths (parse_document ws) ≡ Ok widths)) }
{
    let text = read_text(alloc, input, path)?;
    widths_of(alloc, &text)
}

/// Reads a tape from the input at a path, one frame per byte.
pub fn read_tape<'a, R: Read>(
    alloc: Global,
    input: &mut R,
    path: &'a str,
) -> Result<Tape, Fault<'a>>
    ensures { Gives result (λ tape. IfSome (R.remaining input.old) (λ xs. tape ≡ xs)) }
{
    let frames = read_text(alloc, input, path)?;
    tape_of(alloc, &frames)
}
