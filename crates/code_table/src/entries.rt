//! The entries of a code table in a TOML document, one after another.

ghost use Rattle.std.specs.Prelude.{◌≡◌, ◌≤◌, false, length, replicate, None, MatchResult, Ok, Err, ◌⊎◌, IfOk, IfErr, true};
ghost use Rattle.toml.specs.View.{view, table_view, array_view};
ghost use Rattle.code_table.specs.Tables.{is_placed, AreAlike};
ghost use Rattle.code_table.specs.Texts.{may_stand};
ghost use Rattle.code_table.specs.Entries.{free_frame, columns_of, read_entry};
ghost use Rattle.code_table.specs.Reading.{codes_in, read_places};
ghost use Rattle.code_table.specs.declared.fault.TableFault.TheVariants.{OutOfMemory};

use crate::entry::FrameMeanings;
use crate::fault::TableFault;
use crate::keys::{array_at, frame_of, keys_of};
use crate::meaning::Meaning;
use std::alloc::{AllocError, Global};
use toml::value::Array;
use toml::{Table, Value};

/// How many frames there are.
pub(crate) const FRAMES: usize = 64;

/// Whether there is an entry at the frame.
fn is_placed(places: &[Option<FrameMeanings>], frame: u8) -> bool
    ensures { result ≡ is_placed places.now frame }
{
    matches!(places.get(usize::from(frame)), Some(Some(_)))
}

/// The frame of the entry at this place, where no earlier entry stands at it.
#[tactic(auto, unfolding(crate::specs::Entries::free_frame))]
fn free_frame(places: &[Option<FrameMeanings>], place: usize, number: i64) -> Result<u8, TableFault>
    ensures value { result ≡ free_frame (is_placed places.now) place number }
    ensures small { IfOk result (λ frame. frame ≤ 63) }
    ensures free { IfOk result (λ frame. is_placed places.now frame ≡ false) }
{
    let frame = frame_of(number).ok_or(TableFault::BadFrame { entry: place })?;
    if is_placed(places, frame) {
        return Err(TableFault::DuplicateFrame { entry: place });
    }
    Ok(frame)
}

/// The two columns of the entry at this place.
#[tactic(auto, unfolding(crate::specs::Entries::columns_of))]
fn columns_of(place: usize, unshift: &str, shift: &str) -> Result<FrameMeanings, TableFault>
    ensures value { result ≡ columns_of place unshift.now shift.now }
    ensures fit { IfOk result (λ entry. may_stand entry.unshift entry.shift ≡ true) }
{
    let unshift = Meaning::of(unshift).ok_or(TableFault::BadMeaning { entry: place })?;
    let shift = Meaning::of(shift).ok_or(TableFault::BadMeaning { entry: place })?;
    if !Meaning::may_stand(&unshift, &shift) {
        return Err(TableFault::CaseCodeDiffers { entry: place });
    }
    Ok(FrameMeanings { unshift, shift })
}

/// The entry at this place, counted from 1, and its frame, at which no earlier entry stands.
#[tactic(auto, unfolding(crate::specs::Entries::read_entry))]
fn read_entry(
    places: &[Option<FrameMeanings>],
    place: usize,
    code: &Value,
) -> Result<(u8, FrameMeanings), TableFault>
    ensures value { result ≡ read_entry (is_placed places.now) place (view code.now) }
    ensures small { IfOk result (λ read. read.0 ≤ 63) }
    ensures free { IfOk result (λ read. is_placed places.now read.0 ≡ false) }
    ensures fit { IfOk result (λ read. may_stand read.1.unshift read.1.shift ≡ true) }
{
    let keys = keys_of(code).ok_or(TableFault::WrongType { entry: place })?;
    let frame = free_frame(places, place, keys.frame)?;
    let entry = columns_of(place, keys.unshift, keys.shift)?;
    Ok((frame, entry))
}

/// The places of a table without entries.
fn no_entries(alloc: Global) -> Result<Vec<Option<FrameMeanings>>, AllocError>
    ensures { IfOk result (λ v. v.items ≡ replicate 64 None) }
{
    let mut places = Vec::with_capacity(alloc, FRAMES)?;
    for _ in 0..FRAMES {
        places.push(None)?;
    }
    Ok(places)
}

/// The array of the document's entries.
#[tactic(auto, using(crate::proofs::Arrays::filled_empty, crate::proofs::Arrays::filled_some), unfolding(crate::specs::Reading::codes_in))]
pub(crate) fn codes_in(document: &Table) -> Result<&Array, TableFault>
    ensures { MatchResult result (λ a. codes_in (table_view document.now) ≡ Ok (array_view a.now)) (λ e. codes_in (table_view document.now) ≡ Err e) }
{
    match array_at(document, "code") {
        Some(codes) if !codes.is_empty() => Ok(codes),
        _ => Err(TableFault::MissingCodes),
    }
}

/// The places of all frames, each with its entry among those of the array.
pub(crate) fn read_places(
    alloc: Global,
    codes: &Array,
) -> Result<Vec<Option<FrameMeanings>>, TableFault>
    ensures ok { IfOk result (λ places. read_places (array_view codes.now) ≡ Ok places.items) }
    ensures full { IfOk result (λ places. length places.items ≡ 64) }
    ensures alike { IfOk result (λ places. AreAlike places.items) }
    ensures err { IfErr result (λ e. (e ≡ OutOfMemory) ⊎ (read_places (array_view codes.now) ≡ Err e)) }
{
    let mut places = no_entries(alloc)?;
    for (index, code) in codes.iter().enumerate() {
        let (frame, entry) = read_entry(&places, index + 1, code)?;
        places[usize::from(frame)] = Some(entry);
    }
    Ok(places)
}
