//! Tapes set as slugs.

ghost use Rattle.std.specs.Prelude.{◌≡◌, Ok, Err, None, IfOk, IfErr, OnOk, false};
ghost use Rattle.code_table.specs.Tables.{mean};
ghost use Rattle.line_check.specs.declared.tape.Unset.TheVariants.{OutOfMemory};
ghost use Rattle.line_check.specs.Sets.{Sets, IfFault};
ghost use Rattle.line_check.specs.Spreading.{misfit_among};
ghost use Rattle.line_check.specs.Setting.{unset_line, is_too_long, IsUnsetBy, IsFirstMisfit, IsFirstFault, AddsSlugs};

use crate::fault::{Cause, LineFault, SetError, SetFault};
use crate::line::check;
use crate::slug::Slug;
use code_table::CodeTable;
use slug_reader::{Line, PIECE_FRAMES, ReadFault, Reader, line_at};
use std::alloc::{AllocFailed, Global};
use tape_frames::Tape;
use widths::Widths;

/// Why a tape, or a line of it, is not set.
#[derive(Clone, Copy, PartialEq, Eq)]
pub(crate) enum Unset {
    /// This is wrong at this position, and nothing is before it.
    Faulty { at: u32, cause: Cause },
    /// The slugs could not be kept.
    OutOfMemory,
}

impl<T: Drop> From<AllocFailed<T>> for Unset {
    ghost from_gives = { λ _ e. e ≡ OutOfMemory };

    fn from(_e: AllocFailed<T>) -> Unset {
        Unset::OutOfMemory
    }
}

/// Why the line that is cut at this position has no slug.
fn unset_line(at: u32, fault: LineFault) -> Unset
    ensures { result ≡ unset_line at fault }
{
    match fault {
        LineFault::Overset { over } => Unset::Faulty {
            at,
            cause: Cause::Overset { over },
        },
        LineFault::Loose { under } => Unset::Faulty {
            at,
            cause: Cause::Loose { under },
        },
        LineFault::OutOfMemory => Unset::OutOfMemory,
    }
}

/// Why a tape that cannot be read has no slugs. No tape is too long.
fn unset_tape(fault: ReadFault) -> Unset
    requires { is_too_long fault ≡ false }
    ensures { IsUnsetBy fault result }
{
    let (at, cause) = match fault {
        ReadFault::UnknownCode { at } => (at, Cause::UnknownCode),
        ReadFault::NoWidth { at } => (at, Cause::NoWidth),
        ReadFault::Unfinished { at } => (at, Cause::Unfinished),
        ReadFault::TooLong { .. } => unreachable!(),
        ReadFault::OutOfMemory => return Unset::OutOfMemory,
    };
    Unset::Faulty { at, cause }
}

/// Adds the slugs of lines, made one after another.
fn add_slugs(
    alloc: Global,
    lines: &[Line],
    widths: &Widths,
    slugs: &mut Vec<Slug>,
) -> Result<(), Unset>
    ensures fit { OnOk result (misfit_among widths.now lines.now ≡ None) }
    ensures slugs { OnOk result (AddsSlugs widths.now lines.now slugs.old.items slugs.new.items) }
    ensures misfit { IfErr result (λ why. IsFirstMisfit (misfit_among widths.now lines.now) why) }
{
    for line in lines {
        match check(alloc, line, widths) {
            Ok(slug) => slugs.push(slug)?,
            Err(fault) => return Err(unset_line(line.elevate_at, fault)),
        }
    }
    Ok(())
}

/// The slugs of a tape that is read piece by piece, so that only the lines of one piece are kept beside the slugs.
fn slugs_of(
    alloc: Global,
    table: &CodeTable,
    widths: &Widths,
    tape: &Tape,
) -> Result<Vec<Slug>, Unset>
    ensures slugs { IfOk result (λ slugs. Sets (mean table.now) widths.now tape.now (Ok slugs.items)) }
    ensures unset { IfErr result (λ why. IsFirstFault (mean table.now) widths.now tape.now why) }
{
    let mut reader = Reader::new(alloc, table, widths);
    let mut slugs = Vec::new(alloc);
    for piece in tape.frames().chunks(PIECE_FRAMES) {
        match reader.push(piece) {
            Ok(lines) => add_slugs(alloc, &lines, widths, &mut slugs)?,
            Err(fault) => return Err(unset_tape(fault)),
        }
    }
    match reader.finish() {
        Ok(()) => Ok(slugs),
        Err(fault) => Err(unset_tape(fault)),
    }
}

/// The slugs of a tape: of all its lines with items, in order.
///
/// Otherwise the fault at its first faulty position, a line that does not fit standing at the elevate code that
/// cuts it. `OutOfMemory` comes where the slugs could not be kept.
pub fn set(
    alloc: Global,
    table: &CodeTable,
    widths: &Widths,
    tape: &Tape,
) -> Result<Vec<Slug>, SetError>
    ensures slugs { IfOk result (λ slugs. Sets (mean table.now) widths.now tape.now (Ok slugs.items)) }
    ensures fault { IfErr result (λ e. IfFault e (λ fault. Sets (mean table.now) widths.now tape.now (Err fault))) }
{
    match slugs_of(alloc, table, widths, tape) {
        Ok(slugs) => Ok(slugs),
        Err(Unset::Faulty { at, cause }) => {
            let line = line_at(table, tape, at);
            Err(SetError::Fault(SetFault { at, line, cause }))
        }
        Err(Unset::OutOfMemory) => Err(SetError::OutOfMemory),
    }
}
