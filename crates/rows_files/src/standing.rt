//! Whether the files that were opened stand at their paths still.

ghost use Rattle.std.specs.Prelude.{◌≡◌, ◌↔◌, false, Some, IsTrue, IfSome, IfNone};
ghost use Rattle.rows_files.specs.Standing.{AreTheir, IsFoundAs, IsOpenedPair};

use crate::causes::RowsCause;
use folders::FileId;

/// A row file and its log, as they were opened.
#[derive(Clone, Copy)]
pub struct PairIds {
    pub file: FileId,
    pub log: FileId,
}

/// What a look finds at a path.
#[derive(Clone, Copy)]
pub enum FoundId {
    Nothing,
    Is(FileId),
    /// The host does not let it look.
    Unseen,
}

/// What a look finds at the path of a row file, and at that of its log.
#[derive(Clone, Copy)]
pub struct FoundPair {
    pub file: FoundId,
    pub log: FoundId,
}

/// What stands at the paths of files that are open.
#[derive(Clone, Copy, PartialEq, Eq)]
pub enum Standing {
    /// They do.
    Theirs,
    /// Another file, or none.
    Another,
    /// It can't be told.
    Unseen,
}

/// Whether just this file was found.
fn is_found_as(found: FoundId, own: FileId) -> bool
    ensures { IsTrue result ↔ IsFoundAs own found }
{
    match found {
        FoundId::Is(id) => id.device == own.device && id.inode == own.inode,
        FoundId::Nothing | FoundId::Unseen => false,
    }
}

/// Whether nothing was found.
fn is_nothing(found: FoundId) -> bool
    ensures { IsTrue result ↔ (found ≡ FoundId.Nothing) }
{
    matches!(found, FoundId::Nothing)
}

/// Whether it was not let look.
fn is_unseen(found: FoundId) -> bool
    ensures { IsTrue result ↔ (found ≡ FoundId.Unseen) }
{
    matches!(found, FoundId::Unseen)
}

/// Whether a row file and its log were both found at their paths.
fn are_theirs(own: PairIds, found: FoundPair) -> bool
    ensures { IsTrue result ↔ AreTheir own found }
{
    is_found_as(found.file, own.file) && is_found_as(found.log, own.log)
}

/// What stands at the paths of a row file and its log that are open.
pub fn standing_of(own: PairIds, found: FoundPair) -> Standing
    ensures theirs { (result ≡ Standing.Theirs) ↔ AreTheir own found }
{
    if are_theirs(own, found) {
        Standing::Theirs
    } else if is_unseen(found.file) || is_unseen(found.log) {
        Standing::Unseen
    } else {
        Standing::Another
    }
}

/// The file that was found.
fn id_in(found: FoundId) -> Option<FileId>
    ensures { IfSome result (λ id. found ≡ FoundId.Is id) }
{
    match found {
        FoundId::Is(id) => Some(id),
        FoundId::Nothing | FoundId::Unseen => None,
    }
}

/// The files that an open between two looks opened, where both found the same at their paths; a log may have been made in between.
pub fn opened_pair(before: FoundPair, behind: FoundPair) -> Option<PairIds>
    ensures { IfSome result (IsOpenedPair before behind) }
{
    let file = id_in(behind.file)?;
    let log = id_in(behind.log)?;
    let is_same = is_found_as(before.file, file)
        && (is_nothing(before.log) || is_found_as(before.log, log));
    is_same.then_some(PairIds { file, log })
}

/// Why nothing is made or opened at a path beside which something was kept, or its log, if there is a reason. The log is kept first: where the file
/// is there, both are whole.
pub fn kept_refusal(has_kept: bool, has_log: bool) -> Option<RowsCause>
    ensures none { IfNone result ((has_kept ≡ false) × (has_log ≡ false)) }
    ensures whole { (result ≡ Some RowsCause.Kept) ↔ IsTrue has_kept }
{
    if has_kept {
        Some(RowsCause::Kept)
    } else if has_log {
        Some(RowsCause::HalfKept)
    } else {
        None
    }
}
