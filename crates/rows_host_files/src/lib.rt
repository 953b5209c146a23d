//! Saved rows in files of the host, each a database.
#![tactic(auto)]

mod causes;
mod collecting;
mod database;
mod host_files;
mod keeping;
mod known;
pub mod laws;
mod life;
mod look;
mod making;
mod opening;
mod watch;
mod watched;

pub use host_files::HostFiles;
pub use known::known_rows;
pub use rows_files::{RefusedRows, RowFiles, RowsCause};
pub use watch::HostWatch;
pub use watched::{Watch, Watched};
