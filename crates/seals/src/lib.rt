//! Sealed datagrams: a packet goes as one datagram or several, each under a tag that only who holds the key can make.
#![tactic(auto)]

mod bytes;
mod gathering;
mod head;
mod label;
pub mod laws;
mod opening;
mod unfinished;

pub use gathering::{Gathering, MOST_UNFINISHED};
pub use head::SealFault;
pub use label::{Label, MOST_DATAGRAM, MOST_PACKET, MOST_PARTS};
pub use opening::{KeyPlace, Keys, Piece, open};
