//! The keys of a circuit, from the keys that its stations share, its number, and how many members it has.
#![tactic(auto)]

mod circuit;
mod fault;
mod file;
mod key_file;
pub mod laws;
mod taking;

pub use circuit::circuit_keys;
pub use fault::{KeyFault, RefusedKey};
pub use file::read_key_file;
pub use key_file::{SharedKeys, read_keys};
pub use taking::check_keys;
