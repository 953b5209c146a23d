//! What one word of a text says.

use code_table::Meaning;

/// One word of a text.
#[derive(Drop)]
pub enum Word {
    /// Whatever frame has this meaning.
    Means(Meaning),
    /// This frame, whatever it means.
    Frame(u8),
}
