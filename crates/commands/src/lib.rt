//! What the program does with the words of each command: the files at its paths, the standard streams and the saved rows,
//! each handed to its place. For `create`, `serve` and `run` that is what a station starts from, on the machine that the
//! program runs on: its files, its saved rows and its wire.
#![tactic(auto)]

mod console;
mod create_start;
mod dispatch;
mod editing;
mod files;
mod first_line;
mod host;
mod host_door;
mod host_wire;
mod init_inputs;
mod init_start;
mod keys;
mod manager_text;
mod new_files;
mod plant_start;
mod reels;
mod run_start;
mod serve_start;
mod start_up;
mod status_file;
mod story;
mod tapes;

pub use console::Console;
pub use create_start::create;
pub use dispatch::carry_out;
pub use host::{Host, ThisHost};
pub use host_door::HostDoor;
pub use host_wire::HostWire;
pub use run_start::run;
pub use serve_start::serve;
pub use start_up::{Ground, Launch, Started, start};
