//! Code tables, frame by frame.

ghost use Rattle.std.specs.Prelude.{◌≡◌, ◌≤◌, ◌⊎◌, Some, None, Ok, Err, IfOk, IfErr, option_copied};
ghost use Rattle.toml.specs.Parse.{parse_document};
ghost use Rattle.toml.specs.View.{table_view};
ghost use Rattle.code_table.specs.Reading.{read_table};
ghost use Rattle.code_table.specs.declared.fault.TableFault.TheVariants.{NotToml, OutOfMemory};
ghost use Rattle.code_table.specs.Tables.{mean, case_of};

use crate::case::Case;
use crate::entries::{FRAMES, codes_in, read_places};
use crate::entry::{FrameMeanings, copied};
use crate::fault::TableFault;
use crate::meaning::Meaning;
use std::alloc::{AllocError, Global};
use std::marker::Model;
use toml::Table;

/// What each of the 64 frames means in each case, a case code the same in both. Clauses see the entry of each frame, in their order.
#[derive(Drop)]
pub struct CodeTable {
    places: [Option<FrameMeanings>; FRAMES],
}

impl Model for CodeTable {
    ghost use Rattle.std.specs.Prelude.{◌≡◌, length};
    ghost use Rattle.code_table.specs.Tables.{Places, AreAlike};

    ghost Value = { Places };

    ghost view = { λ t. t.places };

    ghost invariant = { λ t. (length t.places ≡ 64) × AreAlike t.places };
}

/// The document of a text.
fn document_of(alloc: Global, text: &str) -> Result<Table, TableFault>
    ensures ok { IfOk result (λ document. parse_document text.now ≡ Some (table_view document)) }
    ensures err { IfErr result (λ fault. (fault ≡ OutOfMemory) ⊎ ((fault ≡ NotToml) × (parse_document text.now ≡ None))) }
{
    toml::table_from_str(alloc, text).map_err(|error| {
        if error.is_memory() {
            TableFault::OutOfMemory
        } else {
            TableFault::NotToml
        }
    })
}

/// The same entries once more.
fn copied_all(
    alloc: Global,
    entries: &[Option<FrameMeanings>],
) -> Result<Vec<Option<FrameMeanings>>, AllocError>
    ensures { IfOk result (λ v. v.items ≡ entries.now) }
{
    let mut copies = Vec::with_capacity(alloc, entries.len())?;
    for entry in entries {
        copies.push(copied(entry))?;
    }
    Ok(copies)
}

impl CodeTable {
    /// The table of a TOML text: an array `code` of tables with the keys `frame`, `unshift` and `shift`.
    ///
    /// The first fault that holds is answered: `NotToml`, `MissingCodes`, and then that of the first faulty entry.
    /// `OutOfMemory` comes where the text could not be read or the table not be made for want of memory.
    #[tactic(auto, unfolding(crate::specs::Reading::read_table))]
    pub fn read(alloc: Global, text: &str) -> Result<CodeTable, TableFault>
        ensures ok { IfOk result (λ table. read_table (parse_document text.now) ≡ Ok table) }
        ensures err { IfErr result (λ fault. (fault ≡ OutOfMemory) ⊎ (read_table (parse_document text.now) ≡ Err fault)) }
    {
        let document = document_of(alloc, text)?;
        let codes = codes_in(&document)?;
        match <[Option<FrameMeanings>; FRAMES]>::try_from(read_places(alloc, codes)?) {
            Ok(places) => Ok(CodeTable { places }),
            Err(_) => unreachable!(),
        }
    }

    /// An equal table.
    pub fn copy(&self, alloc: Global) -> Result<CodeTable, AllocError>
        ensures { IfOk result (λ table. table ≡ self.now) }
    {
        match <[Option<FrameMeanings>; FRAMES]>::try_from(copied_all(alloc, &self.places)?) {
            Ok(places) => Ok(CodeTable { places }),
            Err(_) => unreachable!(),
        }
    }

    /// What the frame means in the case; `None` where the table has no entry of it, and for a frame above 63.
    /// It selects the same case whichever case holds.
    #[tactic(auto, unfolding(crate::specs::Tables::mean))]
    pub fn meaning(&self, case: Case, frame: u8) -> Option<&Meaning>
        ensures value { option_copied result ≡ mean self.now case frame }
        ensures above { 64 ≤ frame → result ≡ None }
        ensures alike { case_of (mean self.now case frame) ≡ case_of (mean self.now Case.Unshift frame) }
    {
        let entry = self.places.get(usize::from(frame))?.as_ref()?;
        Some(match case {
            Case::Unshift => &entry.unshift,
            Case::Shift => &entry.shift,
        })
    }
}
