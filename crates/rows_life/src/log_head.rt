//! What the first bytes of a log tell: whether it may hold a frame, and the number of the life that it belongs to.

ghost use Rattle.std.specs.Prelude.{◌≡◌, ◌+◌, ◌≤◌, Some, length, IfSome, IsTrue};
ghost use Rattle.rows_life.specs.Keeping.{IsNewLog};
ghost use Rattle.rows_files.specs.declared.found.FoundLog.TheVariants.{Blank};
ghost use Rattle.rows_life.specs.Logs.{number_at, number_in, has_sum, is_signed, is_uncut, number_of, begins_frame, log_of, IsHeaded};

use rows_files::FoundLog;
use sqlite_wal::checksum_of;

/// How many bytes tell what a log is: its header, and the head of its first frame (SQLite's file format, 4.1 and 4.2).
pub const LOG_HEAD_LEN: usize = 56;

/// How long a log of a life is at least: a copy of all that it held leaves its header, and the first frame up to its gate, which is
/// shut.
const LEAST_LEN: usize = 41;

/// Where a frame that is the first has its gate: the byte that is written last, and is then the first of the salt's.
const GATE: usize = 40;

/// Where a header has its salt.
const SALT: usize = 16;

/// What a log of this machine's kind begins with. Its first byte is written last, and is another where a checkpoint is cut off.
const MAGIC: [u8; 4] = [0x37, 0x7f, 0x06, 0x82];

/// The one version of the format.
const VERSION: u32 = 3_007_000;

/// What the first salt of a log has above the number of its life and the count of checkpoints beside it. A checkpoint raises the
/// salt and the count by one each, so the number stays. The database's own first salt is far below.
const BASE: u32 = 0x4000_0000;

/// The greatest number of a life: three bytes.
pub(crate) const LAST_NUMBER: u32 = 0xff_ffff;

/// Four bytes as a number, the highest first.
fn number_at(bytes: &[u8], at: usize) -> u32
    requires { at + 4 ≤ length bytes.now }
    ensures { result ≡ number_at bytes.now at }
{
    bytes[at] as u32 * 0x100_0000
        + bytes[at + 1] as u32 * 0x1_0000
        + bytes[at + 2] as u32 * 0x100
        + bytes[at + 3] as u32
}

/// The number of a life in a log of this first salt, after so many checkpoints.
fn number_in(salt: u32, checkpoints: u32) -> Option<u32>
    ensures { result ≡ number_in salt checkpoints }
{
    let least = BASE as u64 + checkpoints as u64;
    let salt = salt as u64;
    if least < salt && salt <= least + LAST_NUMBER as u64 {
        Some((salt - least) as u32)
    } else {
        None
    }
}

/// Whether a header ends with its sum, which is over the bytes before it once the first is there.
fn has_sum(head: &[u8]) -> bool
    requires { 32 ≤ length head.now }
    ensures { result ≡ has_sum head.now }
{
    let mut front = [0u8; 24];
    front.copy_from_slice(&head[..24]);
    front[0] = MAGIC[0];
    let (first, second) = checksum_of(false, (0, 0), &front);
    first == number_at(head, 24) && second == number_at(head, 28)
}

/// Whether the header is one of a log, and whole, but for its first byte.
fn is_signed(head: &[u8]) -> bool
    requires { 32 ≤ length head.now }
    ensures { result ≡ is_signed head.now }
{
    head[1] == MAGIC[1] && head[2] == MAGIC[2] && head[3] == MAGIC[3] && has_sum(head)
}

/// Whether no frame was cut off: none began, or the log goes on behind its head.
fn is_uncut(head: &[u8]) -> bool
    requires { 41 ≤ length head.now }
    ensures { result ≡ is_uncut head.now }
{
    head.len() >= LOG_HEAD_LEN || head[GATE] != head[SALT]
}

/// The number of the life that a log with this head belongs to, where it has one.
fn number_of(head: &[u8]) -> Option<u32>
    ensures { result ≡ number_of head.now }
{
    if head.len() >= LEAST_LEN && is_uncut(head) && is_signed(head) {
        number_in(number_at(head, SALT), number_at(head, 12))
    } else {
        None
    }
}

/// Whether a frame may stand behind the header: what the database takes for one has the header's salts.
fn begins_frame(head: &[u8]) -> bool
    ensures { result ≡ begins_frame head.now }
{
    head.len() >= LOG_HEAD_LEN
        && head[0] == MAGIC[0]
        && number_at(head, GATE) == number_at(head, SALT)
        && number_at(head, 44) == number_at(head, 20)
}

/// What a log is that begins with these bytes, its first [`LOG_HEAD_LEN`] or as many as it has.
pub fn log_of(head: &[u8]) -> FoundLog
    ensures { result ≡ log_of head.now }
{
    if head.is_empty() {
        return FoundLog::Empty;
    }
    if begins_frame(head) {
        FoundLog::Filled(number_of(head))
    } else {
        FoundLog::Blank(number_of(head))
    }
}

/// Whether a log begins as one of the one version does, for pages of this size.
fn is_headed(log: &[u8], page_size: u32) -> bool
    requires { 56 ≤ length log.now }
    ensures { IsTrue result → IsHeaded page_size log.now }
{
    log[0] == MAGIC[0] && number_at(log, 4) == VERSION && number_at(log, 8) == page_size
}

/// Writes a number as four bytes, the highest first.
fn put(bytes: &mut [u8; LOG_HEAD_LEN], at: usize, number: u32)
    requires { at + 4 ≤ 56 }
{
    bytes[at..at + 4].copy_from_slice(&number.to_be_bytes());
}

/// A log of pages of this size without a frame, of the life of this number. `salt` is to be random.
///
/// It is read as the next start reads it before it is given.
pub(crate) fn new_log(page_size: u32, number: u32, salt: u32) -> Option<[u8; LOG_HEAD_LEN]>
    requires { number ≤ 0xff_ffff }
    ensures blank { IfSome result (λ bytes. log_of bytes ≡ Blank (Some number)) }
    ensures made { IfSome result (λ bytes. IsNewLog page_size bytes) }
{
    let mut log = [0u8; LOG_HEAD_LEN];
    log[..4].copy_from_slice(&MAGIC);
    put(&mut log, 4, VERSION);
    put(&mut log, 8, page_size);
    put(&mut log, 16, BASE + number);
    put(&mut log, 20, salt);
    let (first, second) = checksum_of(false, (0, 0), &log[..24]);
    put(&mut log, 24, first);
    put(&mut log, 28, second);
    if log_of(&log) == FoundLog::Blank(Some(number)) && is_headed(&log, page_size) {
        Some(log)
    } else {
        None
    }
}
