//! The faults that a person reads on standard error.

ghost use Rattle.std.specs.Prelude.{◌≡◌};
ghost use Rattle.command_ends.specs.Ends.{end_of, end_of_rows, end_of_step, IsOfInput, IsOfRows, IsOfWriting, EndsBy};
ghost use Rattle.command_ends.specs.declared.end.End.TheVariants.{Input};
ghost use Rattle.command_ends.specs.declared.fault.Fault.TheVariants.{OutOfMemory, CannotWrite};

use crate::end::End;
use crate::fault_texts::{RowsText, TableText, TapeText, WidthsText};
use crate::telling::{CommandFault, tell};
use code_table::TableFault;
use line_check::{SetError, SetFault};
use refusals::{CauseText, RefusalText, StepRefusal};
use rows_saved::RowsFault;
use std::alloc::{AllocError, AllocFailed};
use std::fmt;
use std::io::Write;
use streams::{CannotWrite, InputFault, PutFault};
use tape_frames::TapeFault;
use thiserror::Error;
use widths::WidthFault;

/// Why a command did not end well. Its text is one line, or two where a file of rows is refused.
#[derive(Clone, Copy, Error)]
pub enum Fault<'a> {
    /// The input at this path can't be read.
    #[error("cannot read {0}")]
    CannotRead(&'a str),
    /// The output can't be written.
    #[error("cannot write")]
    CannotWrite,
    /// An input is longer than any is taken.
    #[error("input too long")]
    InputTooLong,
    /// Memory was refused.
    #[error("out of memory")]
    OutOfMemory,
    /// A text is no code table.
    #[error("{}", TableText(*.0))]
    Table(TableFault),
    /// A text is no width file.
    #[error("{}", WidthsText(*.0))]
    Widths(WidthFault),
    /// Bytes are no tape.
    #[error("{}", TapeText(*.0))]
    Tape(TapeFault),
    /// A tape does not set.
    #[error("fault: {}", CauseText(*.0))]
    Unset(SetFault),
    /// A line of a script, counted from 1, is not played.
    #[error("script line {line}: {what}")]
    Script {
        line: usize,
        what: &'static str,
    },
    /// Rows are not read or saved.
    #[error("{}", RowsText(*.0))]
    Rows(RowsFault),
    /// The same, with what is the matter with their file, on a line of its own.
    #[error("{}\n{}", RowsText(*.0), .1)]
    RowsFile(RowsFault, &'static str),
    /// A text is no configuration.
    #[error("config: {0}")]
    Config(&'static str),
    /// A key of a configuration.
    #[error("config: {what} {key}")]
    ConfigKey {
        what: &'static str,
        key: &'static str,
    },
    /// A station of a configuration, counted from 1.
    #[error("config: bad station {0}")]
    ConfigStation(usize),
    /// The host of a station of a configuration, counted from 1.
    #[error("config: station {0}: host: no address")]
    ConfigHost(usize),
    /// A file of keys is not taken.
    #[error("key: {0}")]
    Key(&'static str),
    /// The file of keys at this path can't be read.
    #[error("key: cannot read {0}")]
    KeyUnread(&'a str),
    /// A station whose configuration names no folders is to end.
    #[error("stop: the configuration names no folders")]
    NoFolders,
    /// The offers of a plant can't be read or written, for this reason.
    #[error("folders: cannot {what} offers: {why}")]
    Offers {
        what: &'static str,
        why: &'static str,
    },
    /// A file or a folder of the station stands where it may not, as `status is the table` or `offers holds the key`.
    #[error("folders: {what} {how} {which}")]
    Misplaced {
        what: &'static str,
        how: &'static str,
        which: &'static str,
    },
    /// Another process works with this folder of the station.
    #[error("folders: another process works with {0}")]
    InUse(&'static str),
    /// A station that is to end has not ended within so many seconds, and it can't be told which process it is.
    #[error("stop: the station has not ended within {0} seconds; the host does not list who holds offers")]
    NotEnded(u32),
    /// Nor has one that is this process.
    #[error("stop: the station has not ended within {seconds} seconds: process {process} holds offers")]
    StillHeld {
        seconds: u32,
        process: u32,
    },
    /// The socket failed.
    #[error("socket: {0}")]
    Socket(&'static str),
    /// A datagram to this member was not taken.
    #[error("socket: send failed to {0}")]
    SendFailed(u8),
    /// A station did not take a step that was asked of it.
    #[error("refused {}", RefusalText(*.0))]
    Refused(StepRefusal),
    /// The command line asks for what can't be done.
    #[error("usage: {0}")]
    Usage(&'static str),
    /// A number without a tape, or a tape without a number.
    #[error("usage: --number and --tape go together")]
    Unpaired,
    /// A layout of saved rows that are not to be made.
    #[error("usage: --layout goes with --create")]
    LayoutAlone,
}

/// The text that a person reads.
impl<'a> fmt::Debug for Fault<'a> {
    fn fmt<W: fmt::Write>(&self, f: &mut fmt::Formatter<W>) -> fmt::Result {
        write!(f, "{self}")
    }
}

impl<'a> From<AllocError> for Fault<'a> {
    ghost from_gives = { λ _ fault. fault ≡ OutOfMemory };

    fn from(_error: AllocError) -> Fault<'a> {
        Fault::OutOfMemory
    }
}

impl<'a, T: Drop> From<AllocFailed<T>> for Fault<'a> {
    ghost from_gives = { λ _ fault. fault ≡ OutOfMemory };

    fn from(_error: AllocFailed<T>) -> Fault<'a> {
        Fault::OutOfMemory
    }
}

impl<'a> From<CannotWrite> for Fault<'a> {
    ghost from_gives = { λ _ fault. fault ≡ CannotWrite };

    fn from(_error: CannotWrite) -> Fault<'a> {
        Fault::CannotWrite
    }
}

/// Why a text was not written whole.
impl<'a> From<PutFault> for Fault<'a> {
    ghost from_gives = { λ _ fault. IsOfWriting fault × IsOfInput (end_of fault) };

    fn from(fault: PutFault) -> Fault<'a> {
        match fault {
            PutFault::OutOfMemory => Fault::OutOfMemory,
            PutFault::CannotWrite => Fault::CannotWrite,
        }
    }
}

/// Why a tape is not set.
impl<'a> From<SetError> for Fault<'a> {
    ghost from_gives = { λ _ fault. IsOfInput (end_of fault) };

    fn from(error: SetError) -> Fault<'a> {
        match error {
            SetError::Fault(fault) => Fault::Unset(fault),
            SetError::OutOfMemory => Fault::OutOfMemory,
        }
    }
}

impl<'a> Fault<'a> {
    /// Why the input at this path is not taken.
    pub fn of_input(fault: InputFault, path: &'a str) -> Fault<'a>
        ensures { IsOfInput (end_of result) }
    {
        match fault {
            InputFault::CannotRead => Fault::CannotRead(path),
            InputFault::TooLong => Fault::InputTooLong,
            InputFault::OutOfMemory => Fault::OutOfMemory,
        }
    }

    /// Why a text is no code table.
    pub fn of_table(fault: TableFault) -> Fault<'a>
        ensures { IsOfInput (end_of result) }
    {
        match fault {
            TableFault::OutOfMemory => Fault::OutOfMemory,
            _ => Fault::Table(fault),
        }
    }

    /// Why a text is no width file.
    pub fn of_widths(fault: WidthFault) -> Fault<'a>
        ensures { IsOfInput (end_of result) }
    {
        match fault {
            WidthFault::OutOfMemory => Fault::OutOfMemory,
            _ => Fault::Widths(fault),
        }
    }

    /// Why bytes are no tape.
    pub fn of_tape(fault: TapeFault) -> Fault<'a>
        ensures { IsOfInput (end_of result) }
    {
        match fault {
            TapeFault::OutOfMemory => Fault::OutOfMemory,
            _ => Fault::Tape(fault),
        }
    }

    /// Why rows are not read or saved.
    pub fn of_rows(fault: RowsFault) -> Fault<'a>
        ensures end { end_of result ≡ end_of_rows fault }
        ensures cause { IsOfRows (end_of result) }
    {
        match fault {
            RowsFault::OutOfMemory => Fault::OutOfMemory,
            _ => Fault::Rows(fault),
        }
    }

    /// Why a station did not take a step that was asked of it.
    pub fn of_step(refusal: StepRefusal) -> Fault<'a>
        ensures { end_of result ≡ end_of_step refusal }
    {
        match refusal {
            StepRefusal::Store(fault) => Fault::of_rows(fault),
            StepRefusal::OutOfMemory => Fault::OutOfMemory,
            _ => Fault::Refused(refusal),
        }
    }

    /// Why a line of a script, counted from 1, is not played.
    pub fn script(line: usize, what: &'static str) -> Fault<'a>
        ensures end { end_of result ≡ Input }
    {
        Fault::Script { line, what }
    }

    /// Writes the text, and gives the end. That the writer fails is ignored.
    pub fn tell<E: Write>(&self, err: &mut E) -> End
        ensures { EndsBy (end_of self.now) result }
    {
        tell(self, err)
    }
}

impl<'a> CommandFault for Fault<'a> {
    ghost ends_as = { end_of };

    fn end(&self) -> End {
        match self {
            Fault::OutOfMemory => End::Memory,
            Fault::Rows(_) | Fault::RowsFile(..) => End::Store,
            Fault::Socket(_) | Fault::SendFailed(_) => End::Socket,
            Fault::Usage(_) | Fault::Unpaired | Fault::LayoutAlone => End::Usage,
            Fault::InUse(_) => End::Busy,
            _ => End::Input,
        }
    }
}
