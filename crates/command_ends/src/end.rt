//! How a command ends.

ghost use Rattle.std.specs.Prelude.{◌≡◌};
ghost use Rattle.std.specs.Process.{exit_status};
ghost use Rattle.command_ends.specs.Ends.{found};
ghost use Rattle.command_ends.specs.Statuses.{status_of};

use std::process::ExitCode;

/// The end of a command.
#[derive(Clone, Copy, PartialEq, Eq)]
pub enum End {
    /// All was done.
    Done,
    /// There is a fault in an input, or the output can't be written.
    Input,
    /// The command line is none, or asks for help.
    Usage,
    /// The store of rows refused.
    Store,
    /// The socket failed.
    Socket,
    /// Memory was refused.
    Memory,
    /// Another process works with a folder: later it may be free.
    Busy,
}

impl End {
    /// How a command ends that was to find out whether something is well, and has told what it found.
    pub fn found(is_well: bool) -> End
        ensures { result ≡ found is_well }
    {
        if is_well { End::Done } else { End::Input }
    }

    /// The exit status of the program, as a number.
    pub fn code(self) -> u8
        ensures { result ≡ status_of self }
    {
        match self {
            End::Done => 0,
            End::Input => 1,
            End::Usage => 2,
            End::Store => 3,
            End::Socket => 4,
            End::Memory => 5,
            End::Busy => 6,
        }
    }

    /// The exit status of the program, as `main` gives it.
    pub fn status(self) -> ExitCode
        ensures { exit_status result ≡ status_of self }
    {
        ExitCode::from(self.code())
    }
}
