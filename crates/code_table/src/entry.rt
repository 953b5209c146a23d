//! What a code table says of one frame.

ghost use Rattle.std.specs.Prelude.{◌≡◌};

use crate::meaning::Meaning;

/// The two meanings of a frame.
#[derive(Drop)]
pub struct FrameMeanings {
    /// What it means in the first case.
    pub unshift: Meaning,
    /// What it means in the second.
    pub shift: Meaning,
}

/// The same entry once more, where there is one. It takes no memory.
pub(crate) fn copied(entry: &Option<FrameMeanings>) -> Option<FrameMeanings>
    ensures { result ≡ entry.now }
{
    match entry {
        None => None,
        Some(entry) => Some(FrameMeanings {
            unshift: entry.unshift.copy(),
            shift: entry.shift.copy(),
        }),
    }
}
