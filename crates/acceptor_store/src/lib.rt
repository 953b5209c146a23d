//! Saved rows in a database: what a station saves outlives its program.
#![tactic(auto)]

mod closing;
mod columns;
mod entry_columns;
mod faults;
mod found_tables;
mod given_up;
mod group;
pub mod laws;
mod layout;
mod make_tables;
mod open_files;
mod opening;
mod reading;
mod row_test;
mod rows_as_entries;
mod rows_at_path;
mod sqlite_rows;
mod statements;
mod station_row;
mod upgrade;

pub use faults::FileFault;
pub use given_up::into_files;
pub use reading::RowVisitor;
pub use rows_at_path::NewTables;
pub use rows_saved::{Balky, Identity, MemoryRows, Rows, RowsFault};
pub use sqlite_rows::SqliteRows;
