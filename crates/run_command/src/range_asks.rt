//! A range of numbers that an editor asks for by a file: when it is asked for, and what is known of its numbers here.

use ballots::Number;
use folders::{FolderFault, spanned};
use looks::Strays;
use offers::Book;
use plant_care::Care;
use std::alloc::Global;
use tape_frames::EntryRef;

/// Whether what was released under a number since the start is a tape, if anything was.
pub(crate) fn released_tape(book: &Book, number: Number) -> Option<bool> {
    match book.entry(number) {
        Some(entry) => Some(!matches!(entry.lend(), EntryRef::Void)),
        None => None,
    }
}

/// Asks for the range that the name of the next stray file asks for, if it asks for one and none is asked for, at a moment; whether its
/// name asks for one. A file that has to wait is looked at again later.
pub(crate) fn ask_for_stray(alloc: Global, strays: &mut Strays, care: &mut Care, now: u64) -> bool {
    let Some(stray) = strays.first() else {
        return false;
    };
    let stamp = stray.sighting.stamp;
    match spanned(alloc, stray.name.as_str()) {
        Ok(None) => return false,
        Ok(Some(span)) => {
            if !care.is_asking() && care.may_ask_for(&span) {
                care.begin_ask(span, stamp, now);
            }
        }
        Err(_) => {}
    }
    strays.could_not(FolderFault::Changed, now);
    true
}
