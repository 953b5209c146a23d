//! A station's turn: what it takes in, and what then goes out.
#![tactic(auto)]

mod event;
mod instance;
mod instances;
pub mod laws;
mod node;
mod rows;
mod sitting;
mod turn;
mod voting;

pub use event::Event;
pub use node::NodeCore;
pub use packets::{Mail, Outgoing};
pub use turn::{CoreRefusal, Note, Turn};
