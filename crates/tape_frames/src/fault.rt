//! Why bytes are no tape.

/// The first of these that holds.
#[derive(Clone, Copy, PartialEq, Eq)]
pub enum TapeFault {
    /// There is no frame.
    Empty,
    /// There are more frames than a tape has.
    TooLong { len: usize },
    /// The frame at this place is above 63, and none before it is.
    BadFrame { at: usize },
    /// The frames could not be copied.
    OutOfMemory,
}
