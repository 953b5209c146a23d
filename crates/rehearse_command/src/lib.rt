//! The command `rehearse`: a whole circuit in one process, driven by a script.
#![tactic(auto)]

mod datagram_lines;
mod notes;
mod outcomes;
mod rehearsal;
mod release_lines;
mod scene_lines;
mod script;

pub use datagram_lines::put_datagrams;
pub use notes::NoteText;
pub use rehearsal::{RehearsalOrder, rehearse};
pub use release_lines::release_line;
pub use script::{Order, ScriptFault, is_ignored, order_of};
