//! Tapes: frames of six levels, one frame a byte or packed; and entries, each a tape or the withdrawal of its number.
#![tactic(auto)]

mod entry;
mod fault;
pub mod laws;
mod levels;
mod packed;
mod packing;
mod tape;
mod unpacking;
mod version;

pub use entry::{Entry, EntryRef};
pub use fault::TapeFault;
pub use levels::holes;
pub use packed::{PackedRef, packed_len};
pub use tape::{MAX_FRAMES, Tape, TapeRef};
pub use version::{MAX_FRAMES_ONE, Version};
