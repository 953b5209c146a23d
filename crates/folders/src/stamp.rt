//! Which file it is, and in which state.

ghost use Rattle.std.specs.Prelude.{◌↔◌, ◌≤◌, ◌+◌, IsTrue};
ghost use Rattle.folders.specs.Stamps.{IsAsRead, IsUnchanged};

/// Which file or folder of the host it is, whatever its name.
#[derive(Clone, Copy, PartialEq, Eq)]
pub struct FileId {
    pub device: u64,
    pub inode: u64,
}

/// What tells a file that is still being written from one that is whole, and from another of its name: which file it is, its length, and
/// when it was last changed.
#[derive(Clone, Copy, PartialEq, Eq)]
pub struct Stamp {
    pub file: FileId,
    pub length: u64,
    /// Of the last change of what it holds, in seconds and nanoseconds since 1970. A copy may set it back.
    pub changed: (i64, i64),
    /// Of the last change of what it holds or of what is told about it, its name and the moment above among that.
    pub touched: (i64, i64),
}

/// Whether a file whose stamp was this is the one that has this stamp now, and holds the same: of the same length, and with the same
/// moment of change of what it holds. To move it changed the other moment.
pub fn is_as_read(before: Stamp, now: Stamp) -> bool
    ensures { IsTrue result ↔ IsAsRead before now }
{
    before.file.device == now.file.device
        && before.file.inode == now.file.inode
        && before.length == now.length
        && before.changed.0 == now.changed.0
        && before.changed.1 == now.changed.1
}

/// Whether two stamps are one.
pub fn is_unchanged(before: Stamp, now: Stamp) -> bool
    ensures { IsTrue result ↔ IsUnchanged before now }
{
    is_as_read(before, now)
        && before.touched.0 == now.touched.0
        && before.touched.1 == now.touched.1
}

/// A moment as one number of nanoseconds since 1970; none before.
pub fn nanos_of(moment: (i64, i64)) -> u64 {
    let seconds = u64::try_from(moment.0).unwrap_or(0);
    let within = u64::try_from(moment.1).unwrap_or(0);
    seconds.saturating_mul(1_000_000_000).saturating_add(within)
}

/// How much older than a start a file may be that is taken for newer, in nanoseconds: the clock of a folder goes in steps.
const GRACE: u64 = 10_000_000;

/// Whether a file that was touched at this moment counts as newer than a start, both in nanoseconds by the clock of its folder: it may be
/// 10 milliseconds older.
pub fn is_since(touched: u64, start: u64) -> bool
    ensures { IsTrue result ↔ (start ≤ touched + 10_000_000) }
{
    start.saturating_sub(GRACE) <= touched
}
