//! What a reader reads of a tape.

ghost use Rattle.std.specs.Prelude.{◌≡◌, ◌++◌, IfOk, OnOk};
ghost use Rattle.code_table.specs.Tables.{mean};
ghost use Rattle.text_tape.specs.Plain.{read_as, read_in, read_of};

use crate::codes::selected_by;
use code_table::{Case, CodeTable, Meaning};
use std::alloc::{AllocError, Global};
use tape_frames::Tape;

/// Writes what a reader reads of a meaning.
fn put_read(text: &mut Vec<u8>, meaning: &Meaning) -> Result<(), AllocError>
    ensures { OnOk result (text.new.items ≡ text.old.items ++ read_as meaning.now) }
{
    match meaning {
        Meaning::Matrix(name) => text.extend_from_slice(name.as_bytes()),
        Meaning::Elevate => text.extend_from_slice(b"\n"),
        Meaning::Spaceband | Meaning::Thin | Meaning::En | Meaning::Em => {
            text.extend_from_slice(b" ")
        }
        _ => Ok(()),
    }
}

/// Writes what a reader reads of a frame where the case holds.
fn put_plainly(
    table: &CodeTable,
    case: Case,
    frame: u8,
    text: &mut Vec<u8>,
) -> Result<(), AllocError>
    ensures { OnOk result (text.new.items ≡ text.old.items ++ read_in (mean table.now case frame)) }
{
    match table.meaning(case, frame) {
        Some(meaning) => put_read(text, meaning),
        None => Ok(()),
    }
}

/// What a reader reads of a tape: its matrices by their names, its spacebands and fixed spaces as blanks, and its line ends.
pub fn spell_plainly(alloc: Global, table: &CodeTable, tape: &Tape) -> Result<Vec<u8>, AllocError>
    ensures { IfOk result (λ text. text.items ≡ read_of (mean table.now) tape.now) }
{
    let mut text = Vec::new(alloc);
    let mut case = Case::Unshift;
    let frames = tape.frames();
    for frame in frames {
        put_plainly(table, case, *frame, &mut text)?;
        case = selected_by(table, *frame).unwrap_or(case);
    }
    Ok(text)
}
