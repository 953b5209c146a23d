//! Whether a file of a station lies within its folders.

ghost use Rattle.std.specs.Prelude.{◌≡◌, ◌↔◌, IsTrue, IfNone, IfSome};
ghost use Rattle.std.specs.List.{AllByRecursion};
ghost use Rattle.station_files.specs.Homes.{IsAmong, LiesAmiss, holder_word};

use crate::file::StationFile;
use crate::traces::is_one;
use folders::FileId;

/// A folder in which, or below which, a file of the station lies.
#[derive(Clone, Copy)]
pub struct Home {
    pub file: StationFile,
    pub folder: FileId,
}

/// One of the two folders of a station.
#[derive(Clone, Copy, PartialEq, Eq)]
pub enum Holder {
    Offers,
    Releases,
}

impl Holder {
    /// The name of its key.
    pub fn word(self) -> &'static str
        ensures { result.now ≡ holder_word self }
    {
        match self {
            Holder::Offers => "offers",
            Holder::Releases => "releases",
        }
    }
}

/// Whether a file lies within a folder, and may not.
fn lies_amiss(folder: FileId, home: &Home) -> bool
    ensures { IsTrue result ↔ LiesAmiss folder home.now }
{
    !home.file.is_tied() && is_one(home.folder, folder)
}

/// The first file that lies within this folder, and may not: from there it would be moved, or taken for what is no file of the station.
pub fn first_within(folder: FileId, homes: &[Home]) -> Option<StationFile>
    ensures none { IfNone result (AllByRecursion (λ h. ¬ LiesAmiss folder h) homes.now) }
    ensures some { IfSome result (IsAmong folder homes.now) }
{
    for home in homes {
        if lies_amiss(folder, home) {
            return Some(home.file);
        }
    }
    None
}
