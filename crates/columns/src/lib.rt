//! The columns of what commands list.
#![tactic(auto)]

mod columns;

pub use columns::{put_blanks, put_digits, put_left, put_number};
