//! What a drawing is written as.

/// What a drawing is written as.
#[derive(Clone, Copy, PartialEq, Eq)]
pub enum DrawingForm {
    /// One document in SVG 1.1.
    Svg,
    /// A page in HTML with the same drawing, a line at a time.
    Html,
}
