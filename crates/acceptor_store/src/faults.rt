//! Why a file of the host gives no rows.

ghost use Rattle.std.specs.Prelude.{◌≡◌, true, false, IfErr, OnOk};
ghost use Rattle.sqlite.specs.declared.error.Error.TheVariants.{SqliteFailure};
ghost use Rattle.sqlite.specs.declared.error.ErrorCode.TheVariants as codes;
ghost use Rattle.acceptor_store.specs.FoundTables.{has_tables};
ghost use Rattle.acceptor_store.specs.Faults.{file_fault, rows_fault, IsOfMaking};
ghost use Rattle.acceptor_store.specs.Sqlite.{IsRefusal};

use crate::found_tables::has_tables;
use rows_saved::RowsFault;
use sqlite::{Error, ErrorCode};
use sqlite_schema::schema::Schema;

/// Why rows are not taken up from a file, made in it, or closed.
#[derive(Clone, Copy, PartialEq, Eq)]
pub enum FileFault {
    /// Another handle has it open.
    InUse,
    /// It holds none of the tables of saved rows.
    Unmade,
    /// It holds them already.
    Made,
    /// It is no database, or one that is damaged or without its log.
    Damaged,
    /// It, or its folder, can't be opened.
    Unopened,
    /// The disk has no room.
    DiskFull,
    /// The disk failed.
    DiskFailed,
    /// The rows in it are refused.
    Rows(RowsFault),
}

impl FileFault {
    /// The fault of the rows that it is.
    pub fn rows_fault(self) -> RowsFault
        ensures { result ≡ rows_fault self }
    {
        match self {
            FileFault::Rows(fault) => fault,
            FileFault::InUse
            | FileFault::Unmade
            | FileFault::Made
            | FileFault::Damaged
            | FileFault::Unopened
            | FileFault::DiskFull
            | FileFault::DiskFailed => RowsFault::Store,
        }
    }
}

/// What a file is refused for that the database does not open or close.
pub(crate) fn file_fault_of(error: &Error) -> FileFault
    ensures fault { result ≡ file_fault error.now }
    ensures refusal { IsRefusal (rows_fault result) }
{
    match error {
        Error::SqliteFailure(ErrorCode::OutOfMemory) => FileFault::Rows(RowsFault::OutOfMemory),
        Error::SqliteFailure(ErrorCode::DatabaseBusy) => FileFault::InUse,
        Error::SqliteFailure(ErrorCode::NotADatabase | ErrorCode::DatabaseCorrupt) => {
            FileFault::Damaged
        }
        Error::SqliteFailure(ErrorCode::CannotOpen) => FileFault::Unopened,
        Error::SqliteFailure(ErrorCode::DiskFull) => FileFault::DiskFull,
        _ => FileFault::DiskFailed,
    }
}

/// What a statement is refused for by which tables are made.
pub(crate) fn making_fault_of(error: &Error) -> FileFault
    ensures making { IsOfMaking result }
    ensures rows { IsRefusal (rows_fault result) }
    ensures full { error.now ≡ SqliteFailure codes.DiskFull → result ≡ FileFault.DiskFull }
{
    match error {
        Error::SqliteFailure(ErrorCode::OutOfMemory) => FileFault::Rows(RowsFault::OutOfMemory),
        Error::SqliteFailure(ErrorCode::DiskFull) => FileFault::DiskFull,
        _ => FileFault::Rows(RowsFault::Store),
    }
}

/// Refuses a database that has the tables of saved rows.
pub(crate) fn test_unmade(schema: &Schema) -> Result<(), FileFault>
    ensures unmade { OnOk result (has_tables schema.now ≡ false) }
    ensures made { IfErr result (λ fault. (fault ≡ FileFault.Made) × (has_tables schema.now ≡ true)) }
{
    if has_tables(schema) {
        Err(FileFault::Made)
    } else {
        Ok(())
    }
}
