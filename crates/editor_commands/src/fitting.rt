//! The command `fit`: how each line of a story fits.

ghost use Rattle.std.specs.Prelude.{◌≡◌, IfOk, IfErr};
ghost use Rattle.code_table.specs.Tables.{mean};
ghost use Rattle.editor_commands.specs.Ends.{end_in, Gives};
ghost use Rattle.editor_commands.specs.Fitted.{IsStory, WasReported, BreaksOffReport, WasFitted, BreaksOffFitting, end_by, FitsWhole};

use crate::cause::EditorFault;
use crate::outputs::put_whole;
use crate::report::{faults_in, report};
use crate::taking::{punched, tape_of};
use code_table::CodeTable;
use command_ends::{End, Fault, tell};
use inputs::{TapePaths, read_table, read_text, read_widths};
use line_check::Setting;
use line_fit::fit as fit_lines;
use std::alloc::Global;
use std::io::{Read, Write};
use std::marker::Model;
use tape_frames::{Tape, Version};
use text_tape::PunchedBy;

/// How a story is given.
#[derive(Clone, Copy, PartialEq, Eq)]
pub enum Given {
    /// As a tape, one frame a byte.
    Tape,
    /// As a text, which is punched first.
    Text,
}

/// A story of which it is to be told how it fits: where its files lie, what reads them, and how it is given. Clauses see the texts.
#[derive(Drop)]
pub struct FitOrder<'a, R: Read + Drop> {
    pub paths: &'a TapePaths<'a>,
    pub table: R,
    pub widths: R,
    pub story: R,
    pub given: Given,
}

impl<'a, R: Read + Drop> Model for FitOrder<'a, R> {
    ghost use Rattle.editor_commands.specs.Fitted.{ToFit};

    ghost Value = { ToFit };

    ghost view = { λ o. record { table = R.remaining o.table; widths = R.remaining o.widths; story = R.remaining o.story; given = o.given } };
}

/// The tape of a story.
fn story_of<'a>(
    alloc: Global,
    table: &CodeTable,
    story: &[u8],
    given: Given,
) -> Result<Tape, EditorFault<'a>>
    ensures { Gives result (λ tape. IsStory given (mean table.now) story.now tape) }
{
    match given {
        Given::Tape => tape_of(alloc, story),
        Given::Text => {
            let by = PunchedBy {
                table,
                ligatures: &[],
                room: Version::Two,
            };
            let frames = punched(alloc, &by, story)?;
            match Tape::from_vec(alloc, frames) {
                Ok(tape) => Ok(tape),
                Err(fault) => Err(EditorFault::Other(Fault::of_tape(fault))),
            }
        }
    }
}

/// Writes the report of a tape, and answers how many of its lines do not set.
fn put_report<'a, W: Write>(
    alloc: Global,
    setting: &Setting,
    tape: &Tape,
    out: &mut W,
) -> Result<u64, EditorFault<'a>>
    ensures ok { IfOk result (λ faults. WasReported setting.now tape.now faults (W.contents out.old) (W.contents out.new)) }
    ensures err { IfErr result (λ e. BreaksOffReport setting.now tape.now (end_in e) (W.contents out.old) (W.contents out.new)) }
{
    let fitting = fit_lines(alloc, &setting.table, &setting.widths, tape)?;
    let text = report(alloc, setting.widths.measure(), &fitting)?;
    put_whole(&text, out)?;
    Ok(faults_in(&fitting))
}

/// Writes the report of a story, and answers how many of its lines do not set.
fn fitted<'a, R: Read + Drop, W: Write>(
    alloc: Global,
    order: FitOrder<'a, R>,
    out: &mut W,
) -> Result<u64, EditorFault<'a>>
    ensures ok { IfOk result (λ faults. WasFitted order.entry faults (W.contents out.old) (W.contents out.new)) }
    ensures err { IfErr result (λ e. BreaksOffFitting order.entry (end_in e) (W.contents out.old) (W.contents out.new)) }
{
    let FitOrder {
        paths,
        mut table,
        mut widths,
        mut story,
        given,
    } = order;
    let table = read_table(alloc, &mut table, paths.table)?;
    let widths = read_widths(alloc, &mut widths, paths.widths)?;
    let story = read_text(alloc, &mut story, paths.tape)?;
    let setting = Setting { table, widths };
    let tape = story_of(alloc, &setting.table, &story, given)?;
    put_report(alloc, &setting, &tape, out)
}

/// How the command ends once a report is written with so many lines that do not set.
fn end_by(faults: u64) -> End
    ensures { result ≡ end_by faults }
{
    End::found(faults == 0)
}

/// Tells of each line of a story how it fits, by a code table and a width file.
///
/// The table is read and taken before the widths are read, and the widths before the story. The first fault of an input ends
/// it, and nothing was written then. A line that does not set does not keep the others from being told: the report is whole,
/// and then it ends the command as a fault of an input does.
#[tactic(auto, using(crate::proofs::FitEnds::broken))]
pub fn fit<R: Read + Drop, W: Write, E: Write>(
    alloc: Global,
    order: FitOrder<'_, R>,
    out: &mut W,
    err: &mut E,
) -> End
    ensures { FitsWhole order.entry result (W.contents out.old) (W.contents out.new) }
{
    match fitted(alloc, order, out) {
        Ok(faults) => end_by(faults),
        Err(fault) => tell(&fault, err),
    }
}
