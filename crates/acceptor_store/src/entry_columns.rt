//! A row as the columns of the table of entries, and back.

ghost use Rattle.std.specs.Prelude.{◌≡◌, ◌≤◌, IfOk, OnOk, option_map};
ghost use Rattle.protocol.specs.Limits.{last_number};
ghost use Rattle.sqlite_value.specs.Value.{owned};
ghost use Rattle.tape_frames.specs.Entries.{lent_entry, entry_frames};
ghost use Rattle.tape_frames.specs.Packing.{packing_of};
ghost use Rattle.rows_table.specs.declared.layout.LayoutOrigin.{LayoutOrigin};
ghost use Rattle.rows_table.specs.declared.layout.Layout.TheVariants.{Two};
ghost use Rattle.rows_table.specs.Entries.{columns_of_entry};
ghost use Rattle.rows_saved.specs.Saved.{HasPromise};
ghost use Rattle.acceptor_store.specs.Columns.{packed_entry, entry_in, columns_for, ComesBack, EntriesComeBack};

use crate::columns::whole_in;
use ballots::{Number, Row};
use rows_table::{EntryColumns, EntryVote};
use sqlite::types::ValueRef;
use std::alloc::{AllocError, Global};
use tape_frames::{EntryRef, PackedRef, laws};

/// The entry of so many frames in these bytes, lent: a withdrawal has no frame and no byte; `None` where they are none.
fn packed_entry(frames: u32, bytes: &[u8]) -> Option<EntryRef<'_>>
    ensures { option_map lent_entry result ≡ packed_entry frames bytes.now }
{
    if frames == 0 && bytes.is_empty() {
        return Some(EntryRef::Void);
    }
    let Ok(length) = u16::try_from(frames) else {
        return None;
    };
    let tape = PackedRef::new(length, bytes)?;
    Some(EntryRef::Packed(tape))
}

/// The entry in two columns, its length and its packed frames, lent; `None` where they are none.
pub(crate) fn entry_in<'a>(length: ValueRef<'a>, packed: ValueRef<'a>) -> Option<EntryRef<'a>>
    ensures { option_map lent_entry result ≡ entry_in (owned length.entry) (owned packed.entry) }
{
    let frames = whole_in(length)?;
    match packed {
        ValueRef::Blob(bytes) => packed_entry(frames, bytes),
        _ => None,
    }
}

/// An entry comes back out of its columns. The function does nothing: its contract is what is known of packings.
fn entries_come_back()
    ensures { EntriesComeBack }
{
    laws::packing();
    laws::unpacking();
    laws::packed();
}

/// The frames of an entry, packed; none where it is a withdrawal.
fn packed_frames(alloc: Global, entry: &EntryRef<'_>) -> Result<Vec<u8>, AllocError>
    ensures { IfOk result (λ bytes. bytes.items ≡ packing_of (entry_frames (lent_entry entry.now))) }
{
    let mut bytes = Vec::new(alloc);
    entry.put_packed(&mut bytes)?;
    Ok(bytes)
}

/// The columns, in layout 2, of a row that has a promise; they are the row again.
pub(crate) fn entry_columns_for(
    alloc: Global,
    number: Number,
    row: &Row,
) -> Result<EntryColumns, AllocError>
    requires promise { HasPromise row.now }
    ensures low { 1 ≤ number }
    ensures high { number ≤ last_number }
    ensures number { IfOk result (λ c. c.number ≡ number) }
    ensures columns { (origin : LayoutOrigin) → IfOk result (λ c. columns_of_entry c ≡ columns_for (Two origin) row.now) }
    ensures back { (origin : LayoutOrigin) → OnOk result (ComesBack (Two origin) row.now) }
{
    let number = number.get();
    let Some(promise) = row.promised() else {
        unreachable!()
    };
    let promised_round = promise.round();
    let promised_owner = u32::from(promise.owner().get());
    let Some(vote) = row.vote() else {
        return Ok(EntryColumns {
            number,
            promised_round,
            promised_owner,
            vote: None,
        });
    };
    let ballot = vote.ballot();
    let round = ballot.round();
    let owner = u32::from(ballot.owner().get());
    let entry = vote.entry();
    let length = entry.len();
    let packed = packed_frames(alloc, &entry)?;
    entries_come_back();
    Ok(EntryColumns {
        number,
        promised_round,
        promised_owner,
        vote: Some(EntryVote {
            round,
            owner,
            length: length as u32,
            packed,
        }),
    })
}
