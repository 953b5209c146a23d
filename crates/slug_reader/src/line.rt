//! Lines.

use crate::items::Items;

/// Where a line stands that does not fill its measure.
#[derive(Clone, Copy, PartialEq, Eq)]
pub enum Quad {
    Left,
    Center,
    Right,
}

/// A line with items, before it is cast.
#[derive(Drop)]
pub struct Line {
    /// Its items, in order.
    pub items: Items,
    /// What its last quad code asks, if it has one.
    pub quad: Option<Quad>,
    /// The position of the elevate code that ends it.
    pub elevate_at: u32,
}
