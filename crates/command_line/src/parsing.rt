//! The command that the words of a call give.

ghost use Rattle.std.specs.Prelude.{◌≡◌, IfErr};
ghost use Rattle.command_ends.specs.Ends.{end_of, IsOfUsage};
ghost use Rattle.command_ends.specs.declared.end.End.TheVariants.{Usage};

use arguments::{Asked, Mismatch, Unasked, asked_by};
use clap::Error;
use clap::error::ErrorKind;
use command_ends::{End, Fault};
use std::alloc::Global;
use std::io::Write;

/// Writes what `clap` says of a line that asks for no command: help to `out`, a mistake to `err`. That the writer fails
/// is ignored.
fn tell<W: Write, E: Write>(error: &Error, out: &mut W, err: &mut E) -> End
    ensures { IsOfUsage result }
{
    if error.kind() == ErrorKind::OutOfMemory {
        return Fault::OutOfMemory.tell(err);
    }
    let _ = if error.use_stderr() {
        write!(err, "{error}")
    } else {
        write!(out, "{error}")
    };
    End::Usage
}

/// What is told where a `--` is among the tapes of a survey.
const TAPES_APART: &str = "no -- goes between tapes";

/// What is told where no command is named.
const NO_COMMAND: &str = "no command is named";

/// What is told where a new plant has no member.
const NO_MEMBERS: &str = "init wants --member or --all";

/// What is told where it has no stations.
const NO_STATIONS: &str = "init wants --stations";

/// What is told where it has no code table or no widths.
const NO_SETTING: &str =
    "init wants --table and --widths: your own, or for a trial those of share/doc/circuitd/examples/wire";

/// The fault of what does not go together.
fn fault_of(mismatch: Mismatch) -> Fault<'static>
    ensures { end_of result ≡ Usage }
{
    match mismatch {
        Mismatch::Unpaired => Fault::Unpaired,
        Mismatch::LayoutAlone => Fault::LayoutAlone,
        Mismatch::TapesApart => Fault::Usage(TAPES_APART),
        Mismatch::NoMembers => Fault::Usage(NO_MEMBERS),
        Mismatch::NoStations => Fault::Usage(NO_STATIONS),
        Mismatch::NoSetting => Fault::Usage(NO_SETTING),
    }
}

/// The command that the words give; the first word is the program's own name.
///
/// Help is written to `out` and mistakes to `err`, and end as usage: those of `clap` as it words them, and then the fault
/// of what does not go together. Where memory is refused, that fault is told and is the end. To ask for the version
/// is a command too, and nothing is written of it yet.
pub fn parse<'a, W: Write, E: Write>(
    alloc: Global,
    words: &'a [String],
    out: &mut W,
    err: &mut E,
) -> Result<Asked<'a>, End>
    ensures { IfErr result IsOfUsage }
{
    match asked_by(alloc, words) {
        Ok(asked) => Ok(asked),
        Err(Unasked::Mismatched(mismatch)) => Err(fault_of(mismatch).tell(err)),
        Err(Unasked::NoCommand) => Err(Fault::Usage(NO_COMMAND).tell(err)),
        Err(Unasked::Clap(error)) if error.kind() == ErrorKind::DisplayVersion => Ok(
            Asked::Version,
        ),
        Err(Unasked::Clap(error)) => Err(tell(&error, out, err)),
    }
}
