//! The one place in which a fault is told, and the end of a command is made of it.

ghost use Rattle.std.specs.Prelude.{◌≡◌};
ghost use Rattle.command_ends.specs.Ends.{EndsBy, EndsAfter, FoundAfter};
ghost use Rattle.command_ends.specs.declared.end.End.{End as EndValue};

use crate::end::End;
use std::fmt;
use std::io::Write;

/// Why a command did not end well. Its text is what a person reads.
pub trait CommandFault: fmt::Display {
    // The end of a command by it.
    ghost ends_as: { Self → EndValue };

    /// How a command ends by this fault.
    fn end(&self) -> End
        ensures { EndsBy (ends_as self.now) result };
}

/// Writes the text of a fault, and gives how a command ends by it. That the writer fails is ignored.
pub fn tell<F: CommandFault, E: Write>(fault: &F, err: &mut E) -> End
    ensures { EndsBy (F.ends_as fault.now) result }
{
    let _ = writeln!(err, "{fault}");
    fault.end()
}

/// How a command ends after this outcome. A fault is told.
pub fn end_with<F: CommandFault + Drop, E: Write>(outcome: Result<(), F>, err: &mut E) -> End
    ensures { EndsAfter F.ends_as outcome result }
{
    match outcome {
        Ok(()) => End::Done,
        Err(fault) => tell(&fault, err),
    }
}

/// How a command ends that was to find out whether something is well, after this outcome. A fault is told.
pub fn found_with<F: CommandFault + Drop, E: Write>(outcome: Result<bool, F>, err: &mut E) -> End
    ensures { FoundAfter F.ends_as outcome result }
{
    match outcome {
        Ok(is_well) => End::found(is_well),
        Err(fault) => tell(&fault, err),
    }
}
