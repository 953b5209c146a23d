//! What a driver is put over.

use rows_saved::Settles;
use station::Station;
use std::alloc::Global;
use wire::Wire;

/// A station on a wire, and what it works with outside of both: under `serve` the output that its releases are printed to, under `run` the
/// folders of its plant.
#[derive(Drop)]
pub struct Machine<R: Settles, N: Wire + Drop, O: Drop> {
    pub alloc: Global,
    pub station: Station<R>,
    pub wire: N,
    pub outside: O,
}
