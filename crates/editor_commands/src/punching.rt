//! The command `punch`: the tape of a text.

ghost use Rattle.std.specs.Prelude.{OnOk, IfErr};
ghost use Rattle.editor_commands.specs.Ends.{end_in};
ghost use Rattle.editor_commands.specs.Punched.{WasPunched, BreaksOffPunching, Punches};

use crate::cause::EditorFault;
use crate::outputs::put_whole;
use crate::taking::punched;
use code_table::Name;
use command_ends::{End, end_with};
use inputs::{StoryPaths, read_table, read_text};
use std::alloc::Global;
use std::io::{Read, Write};
use std::marker::Model;
use tape_frames::Version;
use text_tape::PunchedBy;

/// A tape that is to be punched: where its files lie, what reads them, and by what else it is punched. Clauses see the texts.
#[derive(Drop)]
pub struct PunchOrder<'a, R: Read + Drop> {
    pub paths: &'a StoryPaths<'a>,
    pub table: R,
    pub text: R,
    pub ligatures: &'a [Name],
    pub room: Version,
}

impl<'a, R: Read + Drop> Model for PunchOrder<'a, R> {
    ghost use Rattle.editor_commands.specs.Punched.{ToPunch};

    ghost Value = { ToPunch };

    ghost view = { λ o. record { table = R.remaining o.table; text = R.remaining o.text; ligatures = o.ligatures.now; room = o.room } };
}

/// Writes the tape of a text, up to the first fault.
fn write_tape<'a, R: Read + Drop, W: Write>(
    alloc: Global,
    order: PunchOrder<'a, R>,
    out: &mut W,
) -> Result<(), EditorFault<'a>>
    ensures ok { OnOk result (WasPunched order.entry (W.contents out.old) (W.contents out.new)) }
    ensures err { IfErr result (λ e. BreaksOffPunching order.entry (end_in e) (W.contents out.old) (W.contents out.new)) }
{
    let PunchOrder {
        paths,
        mut table,
        mut text,
        ligatures,
        room,
    } = order;
    let table = read_table(alloc, &mut table, paths.table)?;
    let text = read_text(alloc, &mut text, paths.story)?;
    let by = PunchedBy {
        table: &table,
        ligatures,
        room,
    };
    let tape = punched(alloc, &by, &text)?;
    put_whole(&tape, out)
}

/// Punches a text by a code table: writes its tape, one frame a byte. The letters of a ligature are one matrix.
///
/// The table is read and taken before the text is read. The first fault ends it, and then nothing was written, unless it is
/// the output that can't be written.
#[tactic(auto, using(crate::proofs::Ends::punched_whole, crate::proofs::Ends::punching_broken))]
pub fn punch<R: Read + Drop, W: Write, E: Write>(
    alloc: Global,
    order: PunchOrder<'_, R>,
    out: &mut W,
    err: &mut E,
) -> End
    ensures { Punches order.entry result (W.contents out.old) (W.contents out.new) }
{
    end_with(write_tape(alloc, order, out), err)
}
