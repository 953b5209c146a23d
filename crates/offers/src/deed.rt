//! What is done with a file among the offers.

use crate::stage::OfferFault;
use folders::{FileRequest, Place, Stamp};

/// What is to be done with a file. What is read or moved has to have the stamp: one with another was changed since, and is left alone.
#[derive(Clone, Copy)]
pub enum Deed {
    /// To move it: its number was released, or it is a search that was answered, and goes to those that are done.
    Move {
        request: FileRequest,
        stamp: Stamp,
        to: Place,
    },
    /// To ask the station what it asks for.
    Ask {
        request: FileRequest,
    },
    /// To read it; whether it was replaced while it was under way.
    Read {
        request: FileRequest,
        stamp: Stamp,
        replaced: bool,
    },
    /// To move it to those that are no offers.
    Refuse {
        request: FileRequest,
        stamp: Stamp,
        reason: OfferFault,
    },
}

/// What may be done with files now.
#[derive(Clone, Copy)]
pub struct Allowed {
    /// Whether files may be moved whose numbers were released, and searches that were answered: not while what was released waits to be
    /// written.
    pub moves: bool,
    /// Whether the station may be asked: not while other stations are behind.
    pub asks: bool,
}
