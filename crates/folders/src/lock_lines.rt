//! The lines of the host's list of locks.

/// A lock that a process holds on a whole file.
#[derive(Clone, Copy, PartialEq, Eq)]
pub struct HeldLock {
    pub process: u32,
    /// The number of the file on its device. Which device that is, the list and a look do not tell alike on every file system.
    pub inode: u64,
}

/// The lock of which a line tells, as `1: FLOCK  ADVISORY  WRITE 4053 fe:00:10954705 0 EOF` (proc_locks(5)). `None` of a line of another kind of
/// lock, of one that waits, and of what is no such line.
pub fn lock_in(line: &str) -> Option<HeldLock> {
    let mut words = line.split_ascii_whitespace();
    words.next()?;
    if words.next()? != "FLOCK" {
        return None;
    }
    words.next()?;
    words.next()?;
    let process = words.next()?.parse::<u32>().ok()?;
    let (_, inode) = words.next()?.rsplit_once(':')?;
    let inode = inode.parse::<u64>().ok()?;
    Some(HeldLock { process, inode })
}
