//! What the files among the offers ask for, once they are taken up.

ghost use Rattle.std.specs.Prelude.{◌↔◌, IsTrue};
ghost use Rattle.tape_frames.specs.Entries.{lent_entry};
ghost use Rattle.folders.specs.Offers.{IsMet, IsPlaceOf};

use crate::leaving::Place;
use tape_frames::{Entry, EntryRef};

/// What a file asks for its number.
#[derive(Drop)]
pub enum Wish {
    /// That this entry is agreed on.
    Offered(Entry),
    /// What stands there.
    Sought,
}

/// Whether the entry that stands under a number is the one that was asked for.
fn is_met(wish: &Wish, entry: &EntryRef<'_>) -> bool
    ensures { IsTrue result ↔ IsMet wish.now (lent_entry entry.now) }
{
    match wish {
        Wish::Offered(own) => own.lend().same(entry.lend()),
        Wish::Sought => true,
    }
}

/// Where a file is put once this entry stands under its number.
pub fn place_of(wish: &Wish, entry: &EntryRef<'_>) -> Place
    ensures { IsPlaceOf wish.now (lent_entry entry.now) result }
{
    if is_met(wish, entry) {
        Place::Sent
    } else {
        Place::Lost
    }
}
