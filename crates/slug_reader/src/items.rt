//! The items of a line.

ghost use Rattle.std.specs.Prelude.{◌≡◌, ◌≤◌, IsSome, IfSome, ◌↔◌, length};
ghost use Rattle.tape_frames.specs.Frames.{most_frames};

use crate::item::Item;
use std::marker::Model;
use tape_frames::MAX_FRAMES;

/// The items of a line in their order: one at least, and no more than a tape has frames. Clauses see their list.
#[derive(Drop)]
pub struct Items {
    list: Vec<Item>,
}

impl Model for Items {
    ghost use Rattle.std.specs.Prelude.{List, length, ◌≤◌};
    ghost use Rattle.tape_frames.specs.Frames.{most_frames};
    ghost use Rattle.slug_reader.specs.declared.item.Item.{Item};

    ghost Value = { List Item };

    ghost view = { λ a. a.list.items };

    ghost invariant = { λ a. (1 ≤ length a.list.items) × (length a.list.items ≤ most_frames) };
}

impl Items {
    /// These items; `None` where there is none, or more than [`MAX_FRAMES`].
    pub fn new(list: Vec<Item>) -> Option<Items>
        ensures some { IsSome result ↔ ((1 ≤ length list.items) × (length list.items ≤ most_frames)) }
        ensures value { IfSome result (λ a. a ≡ list.items) }
    {
        if list.is_empty() || list.len() > MAX_FRAMES {
            return None;
        }
        Some(Items { list })
    }

    /// The items, in order.
    pub fn as_slice(&self) -> &[Item]
        ensures value { result.now ≡ self.now }
        ensures many { (1 ≤ length self.now) × (length self.now ≤ most_frames) }
    {
        self.list.as_slice()
    }
}
