//! Where a file of the offers goes, and under what name.

ghost use Rattle.std.specs.Prelude.{◌≡◌, ◌<◌, ◌+◌, ◌≤◌, IfOk, IfSome, IfNone, string_bytes};
ghost use Rattle.folders.specs.Leaving.{folder_name, copy_name, text_name, return_of};

use crate::stamp::{FileId, Stamp};
use std::alloc::{AllocError, Global};

/// Where a file of the offers is put once it is settled.
#[derive(Clone, Copy, PartialEq, Eq)]
pub enum Place {
    /// What it asked for is what stands under its number.
    Sent,
    /// Something else stands there.
    Lost,
    /// It is no offer.
    Refused,
    /// It asked what stands under numbers, and has its answer: a text beside it says it.
    Done,
}

/// All places.
pub const PLACES: [Place; 4] = [Place::Sent, Place::Lost, Place::Refused, Place::Done];

/// A file that is to leave the offers: which, and where it goes.
#[derive(Clone, Copy)]
pub struct Leaving<'a> {
    pub name: &'a str,
    /// As it was found.
    pub stamp: Stamp,
    pub to: Place,
}

/// What becomes of a file that was taken from its name among the offers, and is not to leave them.
#[derive(Clone, Copy, PartialEq, Eq)]
pub enum Return {
    /// It gets its name again.
    Back,
    /// It has its name still: the other one is taken away.
    Stands,
    /// Another file came to stand under its name: it is refused.
    Refused,
}

impl Place {
    /// The name of its folder within the offers.
    pub fn folder(self) -> &'static str
        ensures { result.now ≡ folder_name self }
    {
        match self {
            Place::Sent => "sent",
            Place::Lost => "lost",
            Place::Refused => "refused",
            Place::Done => "done",
        }
    }
}

/// The name that a file of this name has as the first, the second and so on of its folder; where there is no memory for it,
/// `AllocError`.
pub fn copy_name(alloc: Global, name: &str, number: u64) -> Result<String, AllocError>
    ensures { IfOk result (λ t. string_bytes t ≡ copy_name name.now number) }
{
    if number <= 1 {
        String::from_str(alloc, name)
    } else {
        format!(in alloc; "{name}.{number}")
    }
}

/// The name of the text beside a file of this name; where there is no memory for it, `AllocError`.
pub fn text_name(alloc: Global, name: &str) -> Result<String, AllocError>
    ensures { IfOk result (λ t. string_bytes t ≡ text_name name.now) }
{
    format!(in alloc; "{name}.txt")
}

/// The number to try next for a copy, where all up to one are thought to be taken, and one is known to be free, or none yet: twice as far
/// while none is, then between the two. `None` where the next is the free one.
pub fn next_try(taken: u64, free: Option<u64>) -> Option<u64>
    ensures beyond { IfSome result (λ n. taken < n) }
    ensures before { IfSome result (λ n. IfSome free (λ f. n < f)) }
    ensures found { IfNone result (IfSome free (λ f. f ≤ taken + 1)) }
{
    match free {
        None => taken.checked_add(taken.max(1)),
        Some(free) if free <= taken || free - taken <= 1 => None,
        Some(free) => Some(taken + (free - taken) / 2),
    }
}

/// What becomes of a file that was taken from its name among the offers and is not to leave them, by which file stands there now.
pub fn return_of(own: FileId, standing: Option<FileId>) -> Return
    ensures { result ≡ return_of own standing }
{
    match standing {
        None => Return::Back,
        Some(file) if file.device == own.device && file.inode == own.inode => Return::Stands,
        Some(_) => Return::Refused,
    }
}
