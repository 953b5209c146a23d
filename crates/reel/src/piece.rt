//! Pieces of a roll.

/// A piece of a roll: its frames from a place on, and before another.
#[derive(Clone, Copy, PartialEq, Eq)]
pub struct RollPiece {
    pub from: usize,
    pub to: usize,
}
