//! The commands `draw` and `chart`: the drawing of a tape by a code table and widths, and the chart of the two.
#![tactic(auto)]

mod charting;
mod drawing;

pub use charting::{ChartingOrder, chart};
pub use drawing::{DrawOrder, draw};
