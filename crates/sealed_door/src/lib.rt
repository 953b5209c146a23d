//! The door of a station on a sealed wire: which datagrams bring it a packet, and as which datagrams its own packets go out.
#![tactic(auto)]

mod door;
mod naming;
mod sending;

pub use door::SealedDoor;
