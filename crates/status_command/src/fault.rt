//! Why nothing can be told of a station.

ghost use Rattle.std.specs.Prelude.{◌≡◌};
ghost use Rattle.command_ends.specs.Ends.{EndsBy};
ghost use Rattle.command_ends.specs.declared.end.End.TheVariants.{Done};
ghost use Rattle.status_command.specs.Ends.{unknown, end_of_status, end_in};

use command_ends::{CommandFault, End, Fault};
use plant_status::Unread;
use std::alloc::AllocError;
use std::fmt;
use streams::CannotWrite;

/// Why nothing can be told of a station.
#[derive(Clone, Copy)]
pub(crate) enum StatusFault {
    /// Its configuration names no status file.
    Unnamed,
    /// There is no such file.
    Missing,
    /// There is something else in its place.
    NoFile,
    /// It can't be read.
    Unreadable,
    /// It has the text of no status.
    NoText,
    /// It has the text of a later version of the program.
    Later,
    /// It is of another station.
    Other,
    /// The clock tells nothing.
    NoClock,
    /// What is found can't be written.
    Unwritten,
    OutOfMemory,
}

impl From<AllocError> for StatusFault {
    fn from(_: AllocError) -> StatusFault {
        StatusFault::OutOfMemory
    }
}

impl From<Unread> for StatusFault {
    fn from(unread: Unread) -> StatusFault {
        match unread {
            Unread::OutOfMemory => StatusFault::OutOfMemory,
            Unread::Later => StatusFault::Later,
            Unread::NoStatus => StatusFault::NoText,
        }
    }
}

impl From<CannotWrite> for StatusFault {
    fn from(_: CannotWrite) -> StatusFault {
        StatusFault::Unwritten
    }
}

impl StatusFault {
    /// How the command ends by it.
    fn end(self) -> End
        ensures { EndsBy (end_of_status self) result }
    {
        match self {
            StatusFault::OutOfMemory => End::Memory,
            _ => End::Store,
        }
    }

    /// Its words.
    fn words(self) -> &'static str {
        match self {
            StatusFault::Unnamed => "the configuration names no status file",
            StatusFault::Missing => "there is no such file",
            StatusFault::NoFile => "no plain file",
            StatusFault::Unreadable => "cannot be read",
            StatusFault::NoText => "no status",
            StatusFault::Later => "of a later version",
            StatusFault::Other => "of another station",
            StatusFault::NoClock => "the clock tells nothing",
            StatusFault::Unwritten => "cannot write",
            StatusFault::OutOfMemory => "out of memory",
        }
    }
}

/// What the command tells where it can tell nothing of a station.
#[derive(Clone, Copy)]
pub(crate) enum UntoldStatus<'a> {
    /// Its configuration is not read.
    Config(Fault<'a>),
    /// This is the matter, of the status file at a path or of the station.
    Status { path: &'a str, fault: StatusFault },
}

/// What a person reads. The path stands where it is the file that is at fault.
impl<'a> fmt::Display for UntoldStatus<'a> {
    fn fmt<W: fmt::Write>(&self, f: &mut fmt::Formatter<W>) -> fmt::Result {
        let (path, fault) = match *self {
            UntoldStatus::Config(fault) => return write!(f, "{fault}"),
            UntoldStatus::Status { path, fault } => (path, fault),
        };
        let words = fault.words();
        match fault {
            StatusFault::OutOfMemory => f.write_str(words),
            StatusFault::Unnamed | StatusFault::NoClock | StatusFault::Unwritten => {
                write!(f, "status: {words}")
            }
            _ => write!(f, "status: {path}: {words}"),
        }
    }
}

/// In place of the end that says that a station is not well: to a monitor 3 is unknown.
fn unknown(end: End) -> End
    ensures value { result ≡ unknown end }
    ensures fails { ¬ (end ≡ Done) → ¬ (result ≡ Done) }
{
    match end {
        End::Input => End::Store,
        end => end,
    }
}

impl<'a> CommandFault for UntoldStatus<'a> {
    ghost ends_as = { end_in };

    fn end(&self) -> End {
        match self {
            UntoldStatus::Config(fault) => unknown(fault.end()),
            UntoldStatus::Status { fault, .. } => fault.end(),
        }
    }
}
