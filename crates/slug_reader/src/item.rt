//! What stands in a line.

use code_table::Name;

/// Where a matrix hangs, which selects one of the two characters that it carries.
#[derive(Clone, Copy, PartialEq, Eq)]
pub enum Rail {
    Lower,
    Upper,
}

/// One thing in a line. Widths are in units.
#[derive(Drop)]
pub enum Item {
    /// A matrix.
    Matrix { name: Name, rail: Rail, width: u16 },
    /// A spaceband, which takes its width when the line is cast.
    Band,
    /// A thin, en or em space.
    Space { width: u16 },
}
