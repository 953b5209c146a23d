//! The command `spell`: the text of a tape.

ghost use Rattle.std.specs.Prelude.{◌≡◌, OnOk, IfErr};
ghost use Rattle.code_table.specs.Tables.{mean};
ghost use Rattle.editor_commands.specs.Ends.{end_in, Gives};
ghost use Rattle.editor_commands.specs.SpelledAs.{text_in, WasSpelled, BreaksOffSpelling, Spells};

use crate::cause::EditorFault;
use crate::outputs::put_whole;
use crate::taking::tape_of;
use code_table::CodeTable;
use command_ends::{End, end_with};
use inputs::{StoryPaths, read_table, read_text};
use std::alloc::Global;
use std::io::{Read, Write};
use std::marker::Model;
use tape_frames::Tape;
use text_tape::{spell as spell_tape, spell_plainly};

/// How a tape is written as a text.
#[derive(Clone, Copy, PartialEq, Eq)]
pub enum Form {
    /// So that punching the text gives the tape again.
    Punchable,
    /// As a reader reads it.
    Plain,
}

/// A tape that is to be spelled: where its files lie, what reads them, and how it is written. Clauses see the texts.
#[derive(Drop)]
pub struct SpellOrder<'a, R: Read + Drop> {
    pub paths: &'a StoryPaths<'a>,
    pub table: R,
    pub tape: R,
    pub form: Form,
}

impl<'a, R: Read + Drop> Model for SpellOrder<'a, R> {
    ghost use Rattle.editor_commands.specs.SpelledAs.{ToSpell};

    ghost Value = { ToSpell };

    ghost view = { λ o. record { table = R.remaining o.table; tape = R.remaining o.tape; form = o.form } };
}

/// The text of a tape in a form.
fn text_of<'a>(
    alloc: Global,
    table: &CodeTable,
    tape: &Tape,
    form: Form,
) -> Result<Vec<u8>, EditorFault<'a>>
    ensures { Gives result (λ text. text.items ≡ text_in form (mean table.now) tape.now) }
{
    match form {
        Form::Punchable => Ok(spell_tape(alloc, table, tape)?),
        Form::Plain => Ok(spell_plainly(alloc, table, tape)?),
    }
}

/// Writes the text of a tape, up to the first fault.
fn write_text<'a, R: Read + Drop, W: Write>(
    alloc: Global,
    order: SpellOrder<'a, R>,
    out: &mut W,
) -> Result<(), EditorFault<'a>>
    ensures ok { OnOk result (WasSpelled order.entry (W.contents out.old) (W.contents out.new)) }
    ensures err { IfErr result (λ e. BreaksOffSpelling order.entry (end_in e) (W.contents out.old) (W.contents out.new)) }
{
    let SpellOrder {
        paths,
        mut table,
        mut tape,
        form,
    } = order;
    let table = read_table(alloc, &mut table, paths.table)?;
    let bytes = read_text(alloc, &mut tape, paths.story)?;
    let tape = tape_of(alloc, &bytes)?;
    let text = text_of(alloc, &table, &tape, form)?;
    put_whole(&text, out)
}

/// Spells a tape by a code table: writes its text in a form.
///
/// The table is read and taken before the tape is read. The first fault ends it, and then nothing was written, unless it is
/// the output that can't be written.
#[tactic(auto, using(crate::proofs::Ends::spelled_whole, crate::proofs::Ends::spelling_broken))]
pub fn spell<R: Read + Drop, W: Write, E: Write>(
    alloc: Global,
    order: SpellOrder<'_, R>,
    out: &mut W,
    err: &mut E,
) -> End
    ensures { Spells order.entry result (W.contents out.old) (W.contents out.new) }
{
    end_with(write_text(alloc, order, out), err)
}
