//! The command `survey`: how the frames of tapes come in them.

ghost use Rattle.std.specs.Prelude.{◌≡◌, OnOk, IfOk, IfErr, IfSome};
ghost use Rattle.std.specs.Io.KnownBytes.{Appends};
ghost use Rattle.code_table.specs.Tables.{mean};
ghost use Rattle.command_ends.specs.Ends.{end_of, IsOfInput};
ghost use Rattle.reel_commands.specs.Ends.{Gives};
ghost use Rattle.reel_commands.specs.Survey.{IsAdded, IsBegun, survey_text};

use crate::cause::ReelFault;
use crate::outputs::put_whole;
use crate::survey_text::survey_text;
use code_table::CodeTable;
use command_ends::Fault;
use inputs::{SettingPaths, read_table, read_text, read_widths};
use std::alloc::{AllocError, Global};
use std::io::{Read, Write};
use tape_frames::{Tape, TapeFault};
use widths::Widths;

/// A tape that is surveyed, by the path at which it was read.
#[derive(Drop)]
pub struct Surveyed {
    pub name: String,
    pub tape: Tape,
}

/// A code table, a width file, and the tapes that are surveyed by them.
#[derive(Drop)]
pub struct Survey {
    pub table: CodeTable,
    pub widths: Widths,
    pub tapes: Vec<Surveyed>,
}

/// Adds a tape with this name to those that are surveyed.
fn push(alloc: Global, tapes: &mut Vec<Surveyed>, path: &str, tape: Tape) -> Result<(), AllocError>
    ensures { OnOk result (IsAdded path.now tape tapes.old.items tapes.new.items) }
{
    let name = String::from_str(alloc, path)?;
    tapes.push(Surveyed { name, tape })?;
    Ok(())
}

impl Survey {
    /// A survey of no tape yet. The table is read and taken before the widths are read.
    pub fn read<'a, R: Read>(
        alloc: Global,
        paths: &SettingPaths<'a>,
        table: &mut R,
        widths: &mut R,
    ) -> Result<Survey, Fault<'a>>
        ensures ok { IfOk result (λ s. IsBegun (R.remaining table.old) (R.remaining widths.old) s) }
        ensures ends { IfErr result (λ e. IsOfInput (end_of e)) }
    {
        let table = read_table(alloc, table, paths.table)?;
        let widths = read_widths(alloc, widths, paths.widths)?;
        Ok(Survey {
            table,
            widths,
            tapes: Vec::new(alloc),
        })
    }

    /// Adds the tape that is read from the input at a path, one frame a byte.
    pub fn add<'a, R: Read>(
        &mut self,
        alloc: Global,
        path: &'a str,
        input: &mut R,
    ) -> Result<(), ReelFault<'a>>
        ensures added { Gives result (λ _. IfSome (R.remaining input.old) (λ bytes. IsAdded path.now bytes self.old.tapes.items self.new.tapes.items)) }
        ensures others { (self.new.table ≡ self.old.table) × (self.new.widths ≡ self.old.widths) }
    {
        let bytes = read_text(alloc, input, path)?;
        match Tape::from_vec(alloc, bytes) {
            Ok(tape) => {
                push(alloc, &mut self.tapes, path, tape)?;
                Ok(())
            }
            Err(TapeFault::OutOfMemory) => Err(ReelFault::Other(Fault::OutOfMemory)),
            Err(fault) => Err(ReelFault::Tape { path, fault }),
        }
    }

    /// Writes of each of the 64 frames its holes, how often it comes, its meanings and what it lacks, and its first places in each tape
    /// with what stands around them.
    pub fn write<'a, W: Write>(&self, alloc: Global, out: &mut W) -> Result<(), ReelFault<'a>>
        ensures { Gives result (λ _. Appends (W.contents out.old) (W.contents out.new) (survey_text (mean self.now.table) self.now.widths self.now.tapes.items)) }
    {
        let text = survey_text(alloc, self)?;
        put_whole(&text, out)
    }
}
