//! Width files: the measure of a slug, the widths of bands and spaces, and the widths of matrices.
#![tactic(auto)]

mod entry;
mod fault;
pub mod laws;
mod matrix;
mod measures;
mod widths;

pub use entry::MatrixWidth;
pub use fault::{WidthFault, WidthKey};
pub use widths::Widths;
