//! What files are made with: the host, and names that nobody else makes.

use folders::own_name;
use std::alloc::AllocError;
use std::process;
use std::time::SystemTime;

/// The host, and what names are made of: this process, its start, and how many were made.
#[derive(Drop)]
pub(crate) struct Maker<'a> {
    pub(crate) rt: &'a HostRuntime,
    process: u32,
    start: u64,
    count: u64,
}

/// The moment of the host's clock, in nanoseconds since 1970.
fn clock(rt: &HostRuntime) -> u64 {
    let Ok(now) = SystemTime::now(rt) else {
        return 0;
    };
    match now.duration_since(SystemTime::UNIX_EPOCH) {
        Ok(passed) => u64::try_from(passed.as_nanos()).unwrap_or(u64::MAX),
        Err(_) => 0,
    }
}

impl<'a> Maker<'a> {
    /// That of this process, which starts now.
    pub(crate) fn new(rt: &'a HostRuntime) -> Maker<'a> {
        Maker {
            rt,
            process: process::id(rt.process()),
            start: clock(rt),
            count: 0,
        }
    }

    /// The start, in nanoseconds since 1970 by the host's clock.
    pub(crate) fn start(&self) -> u64 {
        self.start
    }

    /// A name that was not made before.
    pub(crate) fn next_name(&mut self) -> Result<String, AllocError> {
        self.count = self.count.saturating_add(1);
        own_name(self.rt.alloc(), self.process, self.start, self.count)
    }
}
