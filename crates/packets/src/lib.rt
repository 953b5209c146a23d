//! What stations say to one another, to whom a turn sends it, and its one spelling in bytes.
#![tactic(auto)]

mod body;
mod decoding;
mod encoding;
mod fault;
mod header;
pub mod laws;
mod letter;
mod mail;
mod outgoing;
mod packet;
mod seat;

pub use body::{Body, BodyRef, PacketKind, may_send};
pub use decoding::decode;
pub use encoding::{encode, encode_beside};
pub use fault::PacketFault;
pub use letter::Letter;
pub use mail::Mail;
pub use outgoing::Outgoing;
pub use packet::{Packet, PacketRef, Route};
pub use seat::Seat;
