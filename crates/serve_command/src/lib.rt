//! The command `serve`: the turns of a station over a wire.
#![tactic(auto)]

mod printer;
mod serve_loop;

pub use serve_loop::{ServeTask, ServeTurn, serve_run, serve_turn};
