//! Tapes whose lines are all looked at.

ghost use Rattle.std.specs.Prelude.{◌≡◌, IfOk};
ghost use Rattle.code_table.specs.Tables.{mean};
ghost use Rattle.line_check.specs.Sets.{first_fault};
ghost use Rattle.line_fit.specs.Fitting.{Fits, first_told};

use crate::pending::{Pending, Reading};
use crate::sizes::Sizes;
use crate::verdict::LineFit;
use code_table::CodeTable;
use line_check::SetFault;
use std::alloc::{AllocError, Global};
use tape_frames::Tape;
use widths::Widths;

/// How the lines of a tape fit.
#[derive(Drop)]
pub struct Fitting {
    /// How each line fits that is cut, in order, also one without an item.
    pub lines: Vec<LineFit>,
    /// The first fault of what stands behind the last elevate code.
    pub rest: Option<SetFault>,
}

/// How each line of a tape fits, by these sizes.
fn fitting_of(
    alloc: Global,
    table: &CodeTable,
    sizes: &Sizes<'_>,
    tape: &Tape,
) -> Result<Fitting, AllocError>
    ensures fits { IfOk result (λ fitting. Fits (mean table.now) sizes.now tape.now fitting) }
    ensures first { IfOk result (λ fitting. first_told fitting ≡ first_fault (mean table.now) sizes.now tape.now) }
{
    let mut pending = Pending::new(alloc);
    let mut lines = Vec::new(alloc);
    let frames = tape.frames();
    let reading = Reading {
        table,
        sizes,
        frames,
    };
    for at in 0..frames.len() {
        match pending.step(alloc, &reading, at)? {
            Some(fit) => lines.push(fit)?,
            None => {}
        }
    }
    let rest = pending.rest(frames.len() as u32);
    Ok(Fitting { lines, rest })
}

/// How each line of a tape fits, by itself, and what is wrong with what stands behind the last.
///
/// The tape is read to its end, whatever is wrong: a frame that cannot be read adds no item. The first fault that is told
/// is the one for which the tape does not set.
pub fn fit(
    alloc: Global,
    table: &CodeTable,
    widths: &Widths,
    tape: &Tape,
) -> Result<Fitting, AllocError>
    ensures fits { IfOk result (λ fitting. Fits (mean table.now) widths.now tape.now fitting) }
    ensures first { IfOk result (λ fitting. first_told fitting ≡ first_fault (mean table.now) widths.now tape.now) }
{
    let sizes = Sizes::new(alloc, widths)?;
    fitting_of(alloc, table, &sizes, tape)
}
