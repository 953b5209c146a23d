//! The command `draw`: the drawing of a tape.

ghost use Rattle.std.specs.Prelude.{OnOk, IfOk, IfErr};
ghost use Rattle.std.specs.Io.KnownBytes.{Appends};
ghost use Rattle.draw_command.specs.Drawing.{WasOrdered, WasDrawn, BreaksOffText, BreaksOffOrder, BreaksOffDrawing, Draws, DrawsBy};
ghost use Rattle.command_ends.specs.Ends.{end_of};

use command_ends::{End, Fault, end_with};
use inputs::{TapePaths, read_table, read_tape, read_widths};
use line_check::SetFault;
use std::alloc::Global;
use std::io::{Read, Write};
use std::marker::Model;
use streams::put_whole;
use tape_drawing::{DrawingForm, DrawingOrder, Names, draw_tape};

/// A drawing that is asked for: where its files lie, what reads them, and as what it is written. Clauses see the texts.
#[derive(Drop)]
pub struct DrawOrder<'a, R: Read + Drop> {
    pub paths: &'a TapePaths<'a>,
    pub table: R,
    pub widths: R,
    pub tape: R,
    pub page: DrawingForm,
}

impl<'a, R: Read + Drop> Model for DrawOrder<'a, R> {
    ghost use Rattle.draw_command.specs.Drawing.{ToDraw};
    ghost use Rattle.tape_drawing.specs.Document.{called};

    ghost Value = { ToDraw };

    ghost view = { λ o. record {
      called = called o.paths.now.tape.now o.paths.now.table.now o.paths.now.widths.now;
      table = R.remaining o.table;
      widths = R.remaining o.widths;
      tape = R.remaining o.tape;
      page = o.page;
    } };
}

/// Writes a drawing, and hands it on.
pub(crate) fn put_text<'a, W: Write>(text: &[u8], out: &mut W) -> Result<(), Fault<'a>>
    ensures ok { OnOk result (Appends (W.contents out.old) (W.contents out.new) text.now) }
    ensures err { IfErr result (λ e. BreaksOffText text.now (end_of e) (W.contents out.old) (W.contents out.new)) }
{
    put_whole(out, text)?;
    Ok(())
}

/// Draws a tape by an order, and answers its first fault, if it has one.
fn put_tape<'a, W: Write>(
    alloc: Global,
    order: &DrawingOrder<'_>,
    out: &mut W,
) -> Result<Option<SetFault>, Fault<'a>>
    ensures ok { IfOk result (λ fault. WasOrdered order.now fault (W.contents out.old) (W.contents out.new)) }
    ensures err { IfErr result (λ e. BreaksOffOrder order.now (end_of e) (W.contents out.old) (W.contents out.new)) }
{
    let drawing = draw_tape(alloc, order)?;
    put_text(&drawing.text, out)?;
    Ok(drawing.fault)
}

/// Draws the tape that is asked for, and answers its first fault, if it has one.
fn put_drawing<'a, R: Read + Drop, W: Write>(
    alloc: Global,
    order: DrawOrder<'a, R>,
    out: &mut W,
) -> Result<Option<SetFault>, Fault<'a>>
    ensures ok { IfOk result (λ fault. WasDrawn order.entry fault (W.contents out.old) (W.contents out.new)) }
    ensures err { IfErr result (λ e. BreaksOffDrawing order.entry (end_of e) (W.contents out.old) (W.contents out.new)) }
{
    let DrawOrder {
        paths,
        mut table,
        mut widths,
        mut tape,
        page,
    } = order;
    let table = read_table(alloc, &mut table, paths.table)?;
    let widths = read_widths(alloc, &mut widths, paths.widths)?;
    let tape = read_tape(alloc, &mut tape, paths.tape)?;
    let drawing = DrawingOrder {
        table: &table,
        widths: &widths,
        tape: &tape,
        names: Names {
            tape: paths.tape,
            table: paths.table,
            widths: paths.widths,
        },
        page,
    };
    put_tape(alloc, &drawing, out)
}

/// Draws the tape that is asked for, up to the first fault. That of a tape that does not set comes once it is drawn.
#[tactic(auto, using(crate::proofs::Ends::sets, crate::proofs::Ends::does_not_set, crate::proofs::Ends::broke_off))]
fn drawn<'a, R: Read + Drop, W: Write>(
    alloc: Global,
    order: DrawOrder<'a, R>,
    out: &mut W,
) -> Result<(), Fault<'a>>
    ensures { DrawsBy order.entry result (W.contents out.old) (W.contents out.new) }
{
    match put_drawing(alloc, order, out)? {
        None => Ok(()),
        Some(fault) => Err(Fault::Unset(fault)),
    }
}

/// Draws a tape by a code table and a width file, as a document in SVG or a page in HTML.
///
/// The table is read and taken before the widths are read, and the widths before the tape. The first fault ends it. A
/// tape that does not set is drawn whole, and then its first fault ends the command. Nothing is written before all
/// three are taken; where the output can't be written, it has a front of the drawing.
pub fn draw<R: Read + Drop, W: Write, E: Write>(
    alloc: Global,
    order: DrawOrder<'_, R>,
    out: &mut W,
    err: &mut E,
) -> End
    ensures { Draws order.entry result (W.contents out.old) (W.contents out.new) }
{
    end_with(drawn(alloc, order, out), err)
}
