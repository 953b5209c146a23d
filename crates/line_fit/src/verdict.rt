//! How a line fits.

use line_check::{SetFault, Slug};
use slug_reader::Line;

/// What is said of one line.
#[derive(Drop)]
pub enum Verdict {
    /// There is nothing to cast.
    Nothing,
    /// This is its first fault.
    Faulty(SetFault),
    /// It sets as this slug.
    Sets(Slug),
}

/// How one line of a tape fits.
#[derive(Drop)]
pub struct LineFit {
    /// The position of the elevate code that ends it.
    pub cut_at: u32,
    /// The line, if it has an item; frames that cannot be read give none.
    pub line: Option<Line>,
    /// The width of its items with its bands at their least.
    pub least: u32,
    /// The width of its items with its bands at their greatest.
    pub greatest: u32,
    pub verdict: Verdict,
}
