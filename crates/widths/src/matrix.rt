//! The matrices of a width file in a TOML document.

ghost use Rattle.std.specs.Prelude.{◌≡◌, ◌⊎◌, IfOk, IfErr, Ok, Err};
ghost use Rattle.std.specs.List.{AllByRecursion};
ghost use Rattle.toml.specs.View.{view, table_view};
ghost use Rattle.widths.specs.Widths.{IsWidth, IsInNameOrder};
ghost use Rattle.widths.specs.Reading.{read_entry, read_matrix};
ghost use Rattle.widths.specs.declared.fault.WidthFault.TheVariants.{OutOfMemory};

use crate::entry::MatrixWidth;
use crate::fault::{WidthFault, WidthKey};
use crate::measures::{MOST_WIDTH, number_of};
use code_table::Name;
use std::alloc::Global;
use toml::{Table, Value};

/// The matrix at this place, counted from 1, with its width.
#[tactic(auto, unfolding(crate::specs::Reading::read_entry))]
fn read_entry(place: usize, name: &str, value: &Value) -> Result<MatrixWidth, WidthFault>
    ensures value { result ≡ read_entry place name.now (view value.now) }
    ensures name { IfOk result (λ entry. entry.name ≡ name.now) }
    ensures range { IfOk result (λ entry. IsWidth entry.width) }
{
    let name = Name::new(name.as_bytes()).ok_or(WidthFault::BadName { place })?;
    let width = number_of(WidthKey::Entry { place }, MOST_WIDTH, value)?;
    Ok(MatrixWidth { name, width })
}

/// The matrices of a table in byte order of their names.
pub(crate) fn read_matrix(alloc: Global, table: &Table) -> Result<Vec<MatrixWidth>, WidthFault>
    ensures ok { IfOk result (λ entries. read_matrix (table_view table.now) ≡ Ok entries.items) }
    ensures names { IfOk result (λ entries. IsInNameOrder entries.items) }
    ensures widths { IfOk result (λ entries. AllByRecursion (λ entry. IsWidth entry.width) entries.items) }
    ensures err { IfErr result (λ fault. (fault ≡ OutOfMemory) ⊎ (read_matrix (table_view table.now) ≡ Err fault)) }
{
    let mut entries = Vec::with_capacity(alloc, table.len())?;
    // A TOML table gives its members in byte order of their names.
    for (name, value) in table.iter() {
        let entry = read_entry(entries.len() + 1, name.as_str(), value)?;
        entries.push(entry)?;
    }
    Ok(entries)
}
