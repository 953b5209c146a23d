//! The two cases of a keyboard.

/// Which of a frame's two meanings holds: a shift code selects the second, an unshift code the first.
#[derive(Clone, Copy, PartialEq, Eq)]
pub enum Case {
    Unshift,
    Shift,
}
