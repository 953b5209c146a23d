//! When something is looked at again, in milliseconds.

ghost use Rattle.std.specs.Prelude.{◌≤◌, ◌+◌, ◌↔◌, IsTrue};

/// The least pause between two messages that a station speaks for another circuit, in milliseconds.
pub const TELL: u64 = 1000;

/// The longest pause before a file is tried again that could not be read or moved, in milliseconds.
pub const LAST_PAUSE: u64 = 60_000;

/// Whether so much time has gone by since a moment, all in milliseconds.
pub fn has_passed(since: u64, pause: u64, now: u64) -> bool
    ensures { IsTrue result ↔ (since + pause ≤ now) }
{
    match since.checked_add(pause) {
        Some(end) => end <= now,
        None => false,
    }
}
