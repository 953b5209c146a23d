//! What a look at the members goes by.

/// A moment, and what came until then.
#[derive(Clone, Copy)]
pub(crate) struct RollLook {
    /// The moment, in milliseconds.
    pub moment: u64,
    /// How many packets came and votes were saved, counted over and over from 0.
    pub news: u64,
    /// Whether none did for a second.
    pub is_quiet: bool,
}
