//! Why a station refuses a step, and the words of that, of a line that is not answered, and of a tape that does not set: a crate of its
//! own, so that what only tells of a refusal needs no station.
#![tactic(auto)]

mod cause_words;
mod line_refusal;
mod refusal;

pub use cause_words::{CauseText, RefusalText};
pub use line_refusal::Refusal;
pub use refusal::StepRefusal;
