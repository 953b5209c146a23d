//! What stands at the path of a row file, and whether one may be made there or be opened: decided before a database is opened,
//! since that makes what is missing and writes to what is there.

ghost use Rattle.std.specs.Prelude.{◌≡◌, ◌≤◌, None, length};
ghost use Rattle.rows_files.specs.Found.{file_of, mark_of, life_number, keeps_sums, lists_nothing, making_refusal, opening_refusal};
ghost use Rattle.rows_files.specs.Found.{parting, HoldsNoByte, IsPair, MayBeOpened};

use crate::causes::RowsCause;

/// What the header of a row file says of the log beside it.
#[derive(Clone, Copy, PartialEq, Eq)]
pub enum Mark {
    /// Nothing, as before 0.3.0; or it is no row file.
    Unmarked,
    /// Nothing, and none is set: each page keeps some bytes for a sum over it, which a mark would break.
    Unmarkable,
    /// It is at rest: all that was saved is in the file.
    AtRest,
    /// It is in use, and a log of this number belongs to it.
    InUse(u32),
}

/// The file at the path of a row file.
#[derive(Clone, Copy, PartialEq, Eq)]
pub enum FoundFile {
    /// There is none.
    Nothing,
    /// It is no database: it is too short for one, or does not begin as one.
    Foreign,
    /// It is a database that lists no table; its log may have some.
    Bare,
    /// It is a database with tables.
    Database(Mark),
}

/// The log beside it.
#[derive(Clone, Copy, PartialEq, Eq)]
pub enum FoundLog {
    /// There is none.
    Nothing,
    /// It has no byte.
    Empty,
    /// It holds no frame, so nothing that the file lacks. Its number, where it has one.
    Blank(Option<u32>),
    /// It may hold what the file lacks. Its number, where it has one.
    Filled(Option<u32>),
}

/// How many bytes tell what a file is: a database's header, and the head of the tree on its first page.
pub const HEAD_LEN: usize = 108;

/// What every database begins with.
const MAGIC: &[u8] = b"SQLite format 3\0";

/// Where the mark stands in a file: its four bytes are the database's user version (SQLite's file format, 1.3), which nothing else
/// here sets. The first says which mark it is, and the others are the number of the last life.
pub const MARK_AT: usize = 60;

/// The first byte of the mark of a file at rest, and of one in use.
pub const AT_REST: u8 = 0xc0;

pub const IN_USE: u8 = 0xc1;

/// Whether each page keeps some bytes for a sum over it.
fn keeps_sums(head: &[u8]) -> bool
    requires { 108 ≤ length head.now }
    ensures { result ≡ keeps_sums head.now }
{
    head[20] != 0
}

/// The number of the last life of a file.
fn life_number(head: &[u8]) -> u32
    requires { 108 ≤ length head.now }
    ensures { result ≡ life_number head.now }
{
    head[61] as u32 * 0x1_0000 + head[62] as u32 * 0x100 + head[63] as u32
}

/// The mark of a database that begins so.
fn mark_of(head: &[u8]) -> Mark
    requires { 108 ≤ length head.now }
    ensures { result ≡ mark_of head.now }
{
    if keeps_sums(head) {
        return Mark::Unmarkable;
    }
    if head[MARK_AT] == IN_USE {
        return Mark::InUse(life_number(head));
    }
    if head[MARK_AT] == AT_REST {
        Mark::AtRest
    } else {
        Mark::Unmarked
    }
}

/// Whether the first page lists no table: it is a leaf without a cell.
fn lists_nothing(head: &[u8]) -> bool
    requires { 108 ≤ length head.now }
    ensures { result ≡ lists_nothing head.now }
{
    head[100] == 13 && head[103] == 0 && head[104] == 0
}

/// What a file is that begins with these bytes, its first [`HEAD_LEN`] or as many as it has.
pub fn file_of(head: &[u8]) -> FoundFile
    ensures { result ≡ file_of head.now }
{
    if head.len() < HEAD_LEN || !head.starts_with(MAGIC) {
        return FoundFile::Foreign;
    }
    if lists_nothing(head) {
        FoundFile::Bare
    } else {
        FoundFile::Database(mark_of(head))
    }
}

/// Why no row file may be made where these stand, if so: none is made over a file, or over a log that may be a station's.
pub fn making_refusal(file: FoundFile, log: FoundLog) -> Option<RowsCause>
    ensures cause { result ≡ making_refusal file log }

    // Nothing that was saved is made over.
    ensures anew { result ≡ None → (file ≡ FoundFile.Nothing) × HoldsNoByte log }
{
    match (file, log) {
        (FoundFile::Nothing, FoundLog::Nothing | FoundLog::Empty) => None,
        (FoundFile::Nothing, _) => Some(RowsCause::LogAlone),
        (FoundFile::Foreign, _) => Some(RowsCause::Damaged),
        (FoundFile::Bare, FoundLog::Nothing | FoundLog::Empty) => Some(RowsCause::Unmade),
        (FoundFile::Bare, _) | (FoundFile::Database(_), _) => Some(RowsCause::Made),
    }
}

/// Why a log is not the one of this number, if so.
fn other_log(number: u32, own: Option<u32>) -> Option<RowsCause>
    ensures cause { result ≡ parting (Mark.InUse number) (FoundLog.Blank own) }
    ensures same { result ≡ parting (Mark.InUse number) (FoundLog.Filled own) }
{
    match own {
        Some(own) if own == number => None,
        _ => Some(RowsCause::OtherLog),
    }
}

/// Why a file of this mark and the log beside it are no pair, if so: the log is gone, or it is one of another time or of
/// another file.
fn parting(mark: Mark, log: FoundLog) -> Option<RowsCause>
    ensures cause { result ≡ parting mark log }

    // What is taken was at rest, or has the log of its life; or no mark tells.
    ensures pair { result ≡ None → IsPair mark log }
{
    match (mark, log) {
        (Mark::Unmarked | Mark::Unmarkable, _) => None,
        (Mark::AtRest, FoundLog::Filled(_)) => Some(RowsCause::OtherLog),
        (Mark::AtRest, _) => None,
        (Mark::InUse(_), FoundLog::Nothing | FoundLog::Empty) => Some(RowsCause::WithoutLog),
        (Mark::InUse(number), FoundLog::Blank(own) | FoundLog::Filled(own)) => {
            other_log(number, own)
        }
    }
}

/// Why the file that stands there is not opened, if so: nothing is written to what is no row file, no database is made, and no
/// file is taken without its log or with another one.
pub fn opening_refusal(file: FoundFile, log: FoundLog) -> Option<RowsCause>
    ensures cause { result ≡ opening_refusal file log }

    // What is opened is a database, and was at rest or has the log of its life, where a mark tells.
    ensures whole { result ≡ None → MayBeOpened file log }
{
    match (file, log) {
        (FoundFile::Nothing, FoundLog::Nothing | FoundLog::Empty) => Some(RowsCause::Missing),
        (FoundFile::Nothing, _) => Some(RowsCause::LogAlone),
        (FoundFile::Foreign, _) => Some(RowsCause::Damaged),
        (FoundFile::Bare, FoundLog::Filled(_)) => None,
        (FoundFile::Bare, _) => Some(RowsCause::Unmade),
        (FoundFile::Database(mark), log) => parting(mark, log),
    }
}
