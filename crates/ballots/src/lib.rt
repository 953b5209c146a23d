//! Members, circuit numbers, ballots, votes and the row that an acceptor saves.
#![tactic(auto)]

mod ballot;
pub mod laws;
mod majorities;
mod member;
mod number;
mod row;
mod vote;

pub use ballot::Ballot;
pub use majorities::majority;
pub use member::{MOST_MEMBERS, Member};
pub use number::Number;
pub use row::Row;
pub use vote::{Vote, VoteRef};
