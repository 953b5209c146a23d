//! The clock of the machine.

use jiff::Timestamp;

/// How many seconds ago 1970 began, where the clock tells it.
pub fn seconds_now(rt: &HostRuntime) -> Option<u64> {
    let now = Timestamp::now(rt).ok()?;
    u64::try_from(now.as_second()).ok()
}
