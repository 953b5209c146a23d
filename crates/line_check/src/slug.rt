//! Slugs.

use crate::sort::Sorts;

/// How a slug fills its measure.
#[derive(Clone, Copy, PartialEq, Eq)]
pub enum Kind {
    /// By its bands.
    J,
    /// Quadded left: the blank stands on the right.
    L,
    /// Quadded to the center: half of the blank stands on each side.
    C,
    /// Quadded right: the blank stands on the left.
    R,
}

/// A line that was cast. `left`, the widths of its items, and `right` add up to the measure.
#[derive(Drop)]
pub struct Slug {
    /// Its items, in order, each band with its width.
    pub items: Sorts,
    pub kind: Kind,
    /// The blank before the items, in units.
    pub left: u16,
    /// The blank after the items, in units.
    pub right: u16,
}
