//! The limits that the host sets a process.

use libc::getrlimit;
use libc::types::rlimit;

/// The limit of how long a file may grow.
const FILE_SIZE: i32 = 1;

/// How many bytes a file that this process writes may have at most; `None` where there is no limit. The host kills a process that
/// writes more.
pub fn file_limit() -> Option<u64> {
    let mut limit = rlimit {
        rlim_cur: u64::MAX,
        rlim_max: u64::MAX,
    };
    if getrlimit(FILE_SIZE, &mut limit) < 0 || limit.rlim_cur == u64::MAX {
        None
    } else {
        Some(limit.rlim_cur)
    }
}
