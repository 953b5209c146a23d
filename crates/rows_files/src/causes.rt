//! Why a file of saved rows is refused, as an operator is told it.

ghost use Rattle.std.specs.Prelude.{◌≡◌};
ghost use Rattle.std.specs.IoError.{error_kind};
ghost use Rattle.rows_saved.specs.declared.fault.RowsFault.TheVariants.{OutOfMemory};
ghost use Rattle.rows_files.specs.Causes.{cause_text, refused_by, refused_for, AreTold, IsHostRefusal};

use command_ends::Fault;
use rows_saved::RowsFault;
use std::alloc::AllocError;
use std::io;
use std::io::ErrorKind;

/// What is the matter with a file of saved rows that is refused.
#[derive(Clone, Copy, PartialEq, Eq)]
pub enum RowsCause {
    /// There is no such file.
    Missing,
    /// There is no such file, and its log lies there.
    LogAlone,
    /// It is in use by its header, and there is no log.
    WithoutLog,
    /// The log beside it is of another time, or of another file.
    OtherLog,
    /// Another process is making it.
    BeingMade,
    /// Another process has it open.
    InUse,
    /// It is a database without the tables of saved rows.
    Unmade,
    /// The file is there already.
    Made,
    /// It has other tables than those of saved rows, or they can't be read.
    Unread,
    /// It is no database, or one that is damaged or without its log.
    Damaged,
    /// It, or its folder, can't be opened.
    Unopened,
    /// The disk has no room for it.
    DiskFull,
    /// The disk failed.
    DiskFailed,
    /// Its path led to another file, or to none, while a station was up over it. What it held lies beside it.
    Replaced,
    /// So it did, and what it held could not all be written beside it.
    Unkept,
    /// Its folder is gone.
    Lost,
    /// What an earlier one at its path held lies beside it.
    Kept,
    /// A part of that lies there.
    HalfKept,
}

impl RowsCause {
    /// It in words.
    pub fn text(self) -> &'static str
        ensures { result.now ≡ cause_text self }
    {
        match self {
            RowsCause::Missing => {
                "no such file: look for it and its log; only a station that never ran is made, by circuitd create"
            }
            RowsCause::LogAlone => {
                "its log is here and the file is not: find the file, and put the two together"
            }
            RowsCause::WithoutLog => { "its log is missing: find it, and put the two together" }
            RowsCause::OtherLog => {
                "its log is of another time: find the one that lay beside it, and put the two together"
            }
            RowsCause::BeingMade => "another process is making it",
            RowsCause::InUse => "another process has it open",
            RowsCause::Unmade => {
                "no station is in it: find its log, and put the two together; if the station never ran, move it away"
            }
            RowsCause::Made => "it was made already: start without --create",
            RowsCause::Unread => "its tables are not those of saved rows, or can't be read",
            RowsCause::Damaged => "it is no database, or damaged, or without its log",
            RowsCause::Unopened => "it can't be opened",
            RowsCause::DiskFull => "the disk is full",
            RowsCause::DiskFailed => "the disk failed",
            RowsCause::Replaced => {
                "another file stands at its path, or none: what it held is kept there with .kept behind its name"
            }
            RowsCause::Unkept => {
                "another file stands at its path, or none, and what it held could not be kept: find the file that was here and its log, or the station is lost"
            }
            RowsCause::Lost => "its folder is gone: the station is lost",
            RowsCause::Kept => {
                "what a station saved here last is kept with .kept behind its name: put that and its log in place of these"
            }
            RowsCause::HalfKept => {
                "what a station saved here last was not kept whole: find the file that was here and its log, or the station is lost"
            }
        }
    }
}

/// Rows that are refused: by which fault, and what is the matter with their file where the fault does not tell it.
#[derive(Clone, Copy, PartialEq, Eq)]
pub struct RefusedRows {
    pub fault: RowsFault,
    pub cause: Option<RowsCause>,
}

impl RefusedRows {
    /// A refusal whose fault tells all.
    pub fn by(fault: RowsFault) -> RefusedRows
        ensures { result ≡ refused_by fault }
    {
        RefusedRows { fault, cause: None }
    }

    /// A store that refused, for this cause.
    pub fn for_cause(cause: RowsCause) -> RefusedRows
        ensures { result ≡ refused_for cause }
    {
        RefusedRows {
            fault: RowsFault::Store,
            cause: Some(cause),
        }
    }
}

/// What a person reads: the text of the fault, and on a line below it the cause, if there is one. Out of memory has no cause beside it.
impl<'a> From<RefusedRows> for Fault<'a> {
    ghost from_gives = { AreTold };

    fn from(refused: RefusedRows) -> Fault<'a> {
        match refused.fault {
            RowsFault::OutOfMemory => Fault::OutOfMemory,
            _ => match refused.cause {
                Some(cause) => Fault::RowsFile(refused.fault, cause.text()),
                None => Fault::Rows(refused.fault),
            },
        }
    }
}

impl From<AllocError> for RefusedRows {
    ghost from_gives = { λ _ refused. refused ≡ refused_by OutOfMemory };

    fn from(_error: AllocError) -> RefusedRows {
        RefusedRows::by(RowsFault::OutOfMemory)
    }
}

/// What the host answers of a file that it does not open, look at, name or remove.
impl From<io::Error> for RefusedRows {
    ghost from_gives = { λ error refused. IsHostRefusal (error_kind error) refused };

    fn from(error: io::Error) -> RefusedRows {
        match error.kind() {
            ErrorKind::OutOfMemory => RefusedRows::by(RowsFault::OutOfMemory),
            ErrorKind::StorageFull => RefusedRows::for_cause(RowsCause::DiskFull),
            _ => RefusedRows::for_cause(RowsCause::Unopened),
        }
    }
}
