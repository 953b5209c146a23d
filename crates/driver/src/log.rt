//! What a station on a wire tells whoever watches it.

use std::io::Write;

/// Where it is told. That the writer fails is ignored.
#[derive(Drop)]
pub struct Log<'a, E: Write> {
    pub err: &'a mut E,
    /// Whether faults alone are told.
    pub quiet: bool,
}
