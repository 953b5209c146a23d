//! The commands over saved rows: `rows`, which writes a line for each, and `upgrade`, which upgrades them to layout 2.
#![tactic(auto)]

mod listing;
mod printing;
mod texts;
mod upgrade;

pub use listing::print_rows;
pub use upgrade::upgrade_rows;
