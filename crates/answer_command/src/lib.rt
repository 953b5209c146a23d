//! The command `answer`: one acceptor of a circuit, a line out for each line in.
#![tactic(auto)]

mod answers;
mod line;

pub use answers::{AnswerOrder, answer};
pub use line::AcceptorSeat;
