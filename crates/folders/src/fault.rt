//! Why a folder did not serve.

ghost use Rattle.std.specs.Prelude.{◌≡◌, Some};
ghost use Rattle.folders.specs.FaultWords.{fault_word};

use std::alloc::AllocError;
use std::io::ErrorKind;
use std::{fmt, io};

/// Why a folder did not serve.
#[derive(Clone, Copy, PartialEq, Eq)]
pub enum FolderFault {
    /// There is no such file or folder, or no longer.
    Missing,
    /// The host does not allow it.
    NotAllowed,
    /// The disk is full, or what this user may have of it.
    Full,
    /// The name is too long.
    NameTooLong,
    /// What stands there is no plain file.
    NoFile,
    /// What stands there is no folder.
    NoFolder,
    /// It is longer than a file may be.
    TooLong,
    /// Another file stands there than was seen, or the file was changed.
    Changed,
    /// Another process works with the folder.
    InUse,
    /// The host failed otherwise.
    Failed,
    /// There is no memory for it.
    OutOfMemory,
}

impl FolderFault {
    /// The fault in a few words, as the log has it.
    pub fn word(self) -> &'static str
        ensures { result.now ≡ fault_word self }
    {
        match self {
            FolderFault::Missing => "it is not there",
            FolderFault::NotAllowed => "it is not allowed",
            FolderFault::Full => "the disk is full",
            FolderFault::NameTooLong => "the name is too long",
            FolderFault::NoFile => "it is no plain file",
            FolderFault::NoFolder => "it is no folder",
            FolderFault::TooLong => "it is too long",
            FolderFault::Changed => "it was changed",
            FolderFault::InUse => "another process works with it",
            FolderFault::Failed => "the host failed",
            FolderFault::OutOfMemory => "out of memory",
        }
    }
}

impl fmt::Display for FolderFault {
    ghost output = { λ f. Some (fault_word f) };

    fn fmt<W: fmt::Write>(&self, f: &mut fmt::Formatter<W>) -> fmt::Result {
        f.write_str(self.word())
    }
}

impl From<AllocError> for FolderFault {
    fn from(_: AllocError) -> FolderFault {
        FolderFault::OutOfMemory
    }
}

impl From<io::Error> for FolderFault {
    fn from(error: io::Error) -> FolderFault {
        match error.kind() {
            ErrorKind::NotFound | ErrorKind::NotADirectory => FolderFault::Missing,
            ErrorKind::PermissionDenied | ErrorKind::ReadOnlyFilesystem => FolderFault::NotAllowed,
            ErrorKind::StorageFull | ErrorKind::QuotaExceeded => FolderFault::Full,
            ErrorKind::FileTooLarge => FolderFault::TooLong,
            ErrorKind::InvalidFilename => FolderFault::NameTooLong,
            ErrorKind::OutOfMemory => FolderFault::OutOfMemory,
            _ => FolderFault::Failed,
        }
    }
}
