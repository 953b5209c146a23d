//! What a start finds of rows in a database, as the days of a circuit's processes have it; and circuits over databases.
#![tactic(auto)]

pub mod laws;
mod plays;

pub use plays::play_in_databases;
