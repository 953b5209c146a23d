//! Where and when a turn is taken.

use packets::Seat;
use std::alloc::Global;

/// The seat whose turn it is, the moment, and the memory for the turn.
#[derive(Clone, Copy)]
pub(crate) struct Sitting {
    pub alloc: Global,
    pub seat: Seat,
    /// In milliseconds.
    pub now: u64,
}
