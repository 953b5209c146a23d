//! Charts of code tables: all 64 combinations with their holes, both meanings and widths, as a document in SVG 1.1 or a page in HTML.
#![tactic(auto)]

mod cells;
mod document;
pub mod laws;
mod lengths;
mod said;
mod texts;

pub use document::{ChartOrder, draw_chart};
pub use said::{MeaningNote, MeaningSpan, tell};
