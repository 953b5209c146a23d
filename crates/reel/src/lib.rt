//! Reels of real tape: which bits of a byte a reader has the levels in, and where a roll is cut into tapes.
#![tactic(auto)]

mod bits;
mod cutting;
mod frames;
mod levels;
mod masks;
mod names;
mod piece;
mod tapes;
mod trimming;

pub use bits::Bit;
pub use frames::frames_of;
pub use levels::{Levels, LevelsFault, levels_of};
pub use masks::mask_of;
pub use names::{MOST_TAPES, tape_name};
pub use piece::RollPiece;
pub use tapes::{Cutting, frames_in, tapes_of};
