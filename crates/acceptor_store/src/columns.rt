//! A row as the columns of its table, and back.

ghost use Rattle.std.specs.Prelude.{◌≡◌, ◌≤◌, IfOk, IfSome, OnOk, option_map, Some};
ghost use Rattle.std.specs.List.{AllByRecursion, filter_map};
ghost use Rattle.sqlite_value.specs.Value.{owned};
ghost use Rattle.sqlite_value.specs.Order.{column};
ghost use Rattle.protocol.specs.Entries.{Taped};
ghost use Rattle.protocol.specs.Versions.{One};
ghost use Rattle.protocol.specs.Fitting.{Fits};
ghost use Rattle.tape_frames.specs.Frames.{IsTape};
ghost use Rattle.tape_frames.specs.Entries.{lent_entry};
ghost use Rattle.rows_table.specs.declared.layout.Layout.TheVariants as layouts;
ghost use Rattle.rows_table.specs.Puts.{columns_of_row};
ghost use Rattle.acceptor_store.specs.Columns.{version_in, whole_in, ballot_from, stored_tape, tape_in, is_null, entry_at, no_entry_at, vote_at, row_of, row_in, damage_of, damage_in, item_in, columns_for, ComesBack};
ghost use Rattle.rows_saved.specs.Saved.{HasPromise, RowFits, AreFitting};

use crate::entry_columns::entry_in;
use ballots::{Ballot, Member, Number, Row, Vote, VoteRef};
use rows_table::{Layout, RowColumns, RowVote};
use sqlite::types::ValueRef;
use std::alloc::{AllocError, Global};
use tape_frames::{EntryRef, MAX_FRAMES_ONE, TapeRef};

/// What stands in a column; null where there is no such column.
pub(crate) fn value_at(columns: &sqlite::Row, at: usize) -> ValueRef<'_>
    ensures { owned result ≡ column columns.now at }
{
    match columns.get_ref(at) {
        Ok(value) => value,
        Err(_) => ValueRef::Null,
    }
}

/// The whole number of 32 bits in a column.
pub(crate) fn whole_in(value: ValueRef<'_>) -> Option<u32>
    ensures { result ≡ whole_in (owned value.entry) }
{
    match value {
        ValueRef::Int(n) => {
            if 0 <= n && n < 4_294_967_296 {
                Some(n as u32)
            } else {
                None
            }
        }
        _ => None,
    }
}

/// The ballot of a round and an owner; `None` where they are no ballot.
fn ballot_from(round: Option<u32>, owner: Option<u32>) -> Option<Ballot>
    ensures { result ≡ ballot_from round owner }
{
    let round = round?;
    let owner = owner?;
    if 1 <= round && 1 <= owner && owner <= u32::from(Member::LAST) {
        Ballot::new(round, Member::new(owner as u8)?)
    } else {
        None
    }
}

/// The tape of these frames, lent; `None` where they are none, or more than layout 1 holds.
fn stored_tape(frames: &[u8]) -> Option<TapeRef<'_>>
    ensures { result ≡ stored_tape frames.now }
{
    if frames.len() > MAX_FRAMES_ONE {
        return None;
    }
    match TapeRef::from_bytes(frames) {
        Ok(tape) => Some(tape),
        Err(_) => None,
    }
}

/// The tape in a column, lent.
fn tape_in(value: ValueRef<'_>) -> Option<TapeRef<'_>>
    ensures { result ≡ tape_in (owned value.entry) }
{
    match value {
        ValueRef::Blob(frames) => stored_tape(frames),
        _ => None,
    }
}

/// Whether a column holds nothing.
fn is_null(value: &ValueRef<'_>) -> bool
    ensures { result ≡ is_null (owned value.now) }
{
    matches!(value, ValueRef::Null)
}

/// The entry in the columns from `at` on, lent: a tape in one of them, or a packed entry in two.
fn entry_at(layout: Layout, columns: &sqlite::Row, at: usize) -> Option<EntryRef<'_>>
    requires { at ≤ 5 }
    ensures { option_map lent_entry result ≡ entry_at layout at columns.now }
{
    match layout {
        Layout::One => {
            let tape = tape_in(value_at(columns, at))?;
            Some(EntryRef::Plain(tape))
        }
        Layout::Two(_) => { entry_in(value_at(columns, at), value_at(columns, at + 1)) }
    }
}

/// Whether the columns of an entry, from `at` on, hold nothing.
fn no_entry_at(layout: Layout, columns: &sqlite::Row, at: usize) -> bool
    requires { at ≤ 5 }
    ensures { result ≡ no_entry_at layout at columns.now }
{
    match layout {
        Layout::One => is_null(&value_at(columns, at)),
        Layout::Two(_) => { is_null(&value_at(columns, at)) && is_null(&value_at(columns, at + 1)) }
    }
}

/// The vote in the columns from `at` on, for an entry that is lent: none where all of them are null.
fn vote_at(layout: Layout, columns: &sqlite::Row, at: usize) -> Option<Option<VoteRef<'_>>>
    requires { at ≤ 3 }
    ensures { result ≡ vote_at layout at columns.now }
{
    let round = value_at(columns, at);
    let owner = value_at(columns, at + 1);
    if is_null(&round) && is_null(&owner) && no_entry_at(layout, columns, at + 2) {
        return Some(None);
    }
    let ballot = ballot_from(whole_in(round), whole_in(owner))?;
    let entry = entry_at(layout, columns, at + 2)?;
    Some(Some(VoteRef::new(ballot, entry)))
}

/// The promise and the vote of the row that the columns from `first` on are, the entry lent;
/// `None` where they are no row.
fn parts_in(
    layout: Layout,
    columns: &sqlite::Row,
    first: usize,
) -> Option<(Ballot, Option<VoteRef<'_>>)>
    requires { first ≤ 1 }
    ensures { option_map (λ p. row_of p.0 p.1) result ≡ row_in layout first columns.now }
{
    let promise = ballot_from(
        whole_in(value_at(columns, first)),
        whole_in(value_at(columns, first + 1)),
    )?;
    let vote = vote_at(layout, columns, first + 2)?;
    let stands = match &vote {
        None => true,
        Some(vote) => !promise.is_below(vote.ballot()),
    };
    if stands { Some((promise, vote)) } else { None }
}

/// The vote with frames of its own, if there is one.
fn copied(alloc: Global, vote: Option<VoteRef<'_>>) -> Result<Option<Vote>, AllocError>
    ensures { IfOk result (λ copy. copy ≡ vote.entry) }
{
    match vote {
        None => Ok(None),
        Some(vote) => Ok(Some(vote.copy(alloc)?)),
    }
}

/// The row that the columns from `first` on are: five of them in layout 1, six in layout 2; `None` where they are no row.
/// The version of the layout has it.
pub(crate) fn row_in(
    alloc: Global,
    layout: Layout,
    columns: &sqlite::Row,
    first: usize,
) -> Result<Option<Row>, AllocError>
    requires { first ≤ 1 }
    ensures row { IfOk result (λ row. row ≡ row_in layout first columns.now) }
    ensures fits { IfOk result (λ row. IfSome row (RowFits (version_in layout))) }
{
    let Some((promise, vote)) = parts_in(layout, columns, first) else {
        return Ok(None);
    };
    let vote = copied(alloc, vote)?;
    Ok(Row::new(Some(promise), vote))
}

/// The key of a row of the listing, where it is no circuit number or its columns are no row.
pub(crate) fn damage_of(layout: Layout, row: &sqlite::Row) -> Option<i64>
    ensures { result ≡ damage_of (column row.now 0) (row_in layout 1 row.now) }
{
    let ValueRef::Int(key) = value_at(row, 0) else {
        return None;
    };
    if 1 <= key && key <= i64::from(Number::LAST) && parts_in(layout, row, 1).is_some() {
        None
    } else {
        Some(key)
    }
}

/// The key of the first row of a listing that is none, or that stands under no circuit number; `None` where there is no such row.
pub(crate) fn damage_in(layout: Layout, rows: &[sqlite::Row]) -> Option<i64>
    ensures { result ≡ damage_in layout rows.now }
{
    for row in rows {
        if let Some(key) = damage_of(layout, row) {
            return Some(key);
        }
    }
    None
}

/// The number and the row that a row of the listing is; `None` where it is no row of the layout, or stands under no circuit number.
pub(crate) fn item_in(
    alloc: Global,
    layout: Layout,
    row: &sqlite::Row,
) -> Result<Option<(Number, Row)>, AllocError>
    ensures { IfOk result (λ item. item ≡ item_in layout row.now) }
{
    let Some(value) = whole_in(value_at(row, 0)) else {
        return Ok(None);
    };
    let Some(number) = Number::new(value) else {
        return Ok(None);
    };
    match row_in(alloc, layout, row, 1)? {
        Some(row) => Ok(Some((number, row))),
        None => Ok(None),
    }
}

/// The numbers and rows of a listing, without what is no row. Each row has a promise, and the version of the layout has it.
pub(crate) fn items_in(
    alloc: Global,
    layout: Layout,
    rows: &[sqlite::Row],
) -> Result<Vec<(Number, Row)>, AllocError>
    ensures items { IfOk result (λ items. items.items ≡ filter_map (item_in layout) rows.now) }
    ensures promised { IfOk result (λ items. AllByRecursion (λ p. HasPromise p.1) items.items) }
    ensures fits { IfOk result (λ items. AreFitting (version_in layout) items.items) }
{
    let mut items = Vec::new(alloc);
    for row in rows {
        if let Some(item) = item_in(alloc, layout, row)? {
            items.push(item)?;
        }
    }
    Ok(items)
}

/// The frames of the tape that was voted for, one a byte, where layout 1 has a row for the entry.
fn voted_frames(alloc: Global, vote: &Vote) -> Result<Vec<u8>, AllocError>
    requires { Fits One vote.now.entry }
    ensures tape { IfOk result (λ frames. vote.now.entry ≡ Taped frames.items) }
    ensures is_tape { IfOk result (λ frames. IsTape frames.items) }
{
    let entry = vote.entry();
    // What an entry is, is known once its length is read.
    let _length = entry.len();
    let mut frames = Vec::new(alloc);
    entry.put_plain(&mut frames)?;
    Ok(frames)
}

/// The columns, in layout 1, of a row that has a promise, and a vote for a tape where it has one; they are the row again.
pub(crate) fn columns_for(
    alloc: Global,
    number: Number,
    row: &Row,
) -> Result<RowColumns, AllocError>
    requires promise { HasPromise row.now }
    requires fits { RowFits One row.now }
    ensures number { IfOk result (λ c. c.number ≡ number) }
    ensures columns { IfOk result (λ c. columns_of_row c ≡ columns_for layouts.One row.now) }
    ensures back { OnOk result (ComesBack layouts.One row.now) }
{
    let number = number.get();
    let Some(promise) = row.promised() else {
        unreachable!()
    };
    let promised_round = promise.round();
    let promised_owner = u32::from(promise.owner().get());
    let Some(vote) = row.vote() else {
        return Ok(RowColumns {
            number,
            promised_round,
            promised_owner,
            vote: None,
        });
    };
    let ballot = vote.ballot();
    let frames = voted_frames(alloc, vote)?;
    Ok(RowColumns {
        number,
        promised_round,
        promised_owner,
        vote: Some(RowVote {
            round: ballot.round(),
            owner: u32::from(ballot.owner().get()),
            tape: frames,
        }),
    })
}
