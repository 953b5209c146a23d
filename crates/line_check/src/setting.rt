//! A code table and widths together.

use code_table::CodeTable;
use widths::Widths;

/// What a tape is set by.
#[derive(Drop)]
pub struct Setting {
    pub table: CodeTable,
    pub widths: Widths,
}
