//! Texts as tapes: words punched as the frames of a code table, and a tape spelled as words.
#![tactic(auto)]

mod adding;
mod codes;
mod fault;
mod index;
pub mod laws;
mod plain;
mod punching;
mod spelling;

pub use fault::{PunchCause, PunchError, PunchFault};
pub use plain::spell_plainly;
pub use punching::{PunchedBy, punch};
pub use spelling::spell;
