//! The circuit on the wire: what a station asks of the network, and datagrams over UDP.
#![tactic(auto)]

mod address;
mod buffer;
mod door;
mod guarded;
mod plain;
mod reason;
mod socket;
mod strangers;
mod udp;
mod wire;

pub use address::{Address, comes_from, place_of};
pub use door::{Brought, Door};
pub use guarded::GuardedWire;
pub use plain::{PlainDoor, has_mark};
pub use reason::Reason;
pub use socket::Socket;
pub use strangers::Strangers;
pub use udp::UdpWire;
pub use wire::{Arrival, Wire};
