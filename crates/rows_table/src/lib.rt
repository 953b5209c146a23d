//! The tables of a row store, as SQL: the statements, and what each makes of the tables.
#![tactic(auto)]

mod cursor;
mod entry_table;
mod layout;
mod puts;
mod reads;
mod rising;
mod staging;
mod station;
mod tables;
mod upgrade;

pub use cursor::TableVisitor;
pub use entry_table::{EntryColumns, EntryVote, add_entries, add_entry, make_entry_table};
pub use layout::{Layout, LayoutOrigin};
pub use puts::{RowColumns, RowVote, put_entry, put_row};
pub use reads::{all_rows, get_row, visit_rows};
pub use rising::{are_rising, number_above, rising_is_listed, rows_rise};
pub use staging::{stage_entry, stage_row};
pub use station::get_station;
pub use tables::{StationColumns, create_layout_one, create_layout_two};
pub use upgrade::upgrade_tables;
