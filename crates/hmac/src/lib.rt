//! HMAC over SHA-256 (RFC 2104): the tag of a message under a key.
#![tactic(auto)]

mod key;
pub mod laws;
mod pads;

pub use key::Key;
