//! The commands `punch`, `spell` and `fit`: a tape of a text, a text of a tape, and how each line of a tape fits.
#![tactic(auto)]

mod cause;
mod fitting;
mod outputs;
mod punching;
mod report;
mod row;
mod spelling;
mod taking;
mod verdict_words;

pub use cause::EditorFault;
pub use fitting::{FitOrder, Given, fit};
pub use punching::{PunchOrder, punch};
pub use spelling::{Form, SpellOrder, spell};
