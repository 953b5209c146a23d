//! What the rules ask about a file beside the file.

use pace::Window;
use std::collections::BTreeMap;
use tape_frames::Entry;

/// What the rules ask about a file beside the file. Times are in milliseconds.
#[derive(Drop)]
pub(crate) struct RuleFacts {
    /// The numbers that are under way.
    pub(crate) window: Window,
    /// The entries of the numbers that were released.
    pub(crate) released: BTreeMap<u32, Entry>,
    /// The last look.
    pub(crate) looked: u64,
    /// How long a file has to stay as it was found until it is whole.
    pub(crate) still: u64,
}
