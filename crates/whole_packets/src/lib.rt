//! Laws of the sealed wire: what a packet's datagrams give, in whatever order they come, and what tells them from the packets of the
//! plain wire.
#![tactic(auto)]

mod marks;
mod orders;

pub use marks::sealed_is_no_packet;
pub use orders::gather_all;
