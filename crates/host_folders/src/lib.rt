//! The folders of a plant, of the host. What they hold is not known to a contract.
#![tactic(auto)]

mod copies;
mod gone;
mod guard;
mod held;
mod host;
mod locks;
mod looks;
mod maker;
mod moving;
mod offers;
mod open_folder;
mod part;
mod places;
mod releases;
mod stopping;
mod workers;

pub use host::HostFolders;
pub use looks::why_no_folder;
pub use places::{rows_at, why_misplaced};
pub use stopping::{await_end, lay_stop};
pub use workers::{WorkedOffers, Worker, worker_at};
