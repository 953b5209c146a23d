//! One matrix of a width file.

ghost use Rattle.std.specs.Prelude.{◌≡◌, IfSome, IfOk};
ghost use Rattle.std.specs.Ordering.{nat_cmp};
ghost use Rattle.std.specs.Cmp.Lexicographic.{slice_cmp};
ghost use Rattle.std.specs.List.{AllByRecursion};
ghost use Rattle.widths.specs.Widths.{width_among, IsInNameOrder, IsWidth};

use code_table::Name;
use std::alloc::{AllocError, Global};
use std::cmp::Ordering;

/// A matrix and its width.
#[derive(Drop)]
pub struct MatrixWidth {
    /// Its name.
    pub name: Name,
    /// Its width in units, 1 to 999.
    pub width: u16,
}

/// How the entry's name compares with this one, byte by byte.
fn compare_names(entry: &MatrixWidth, name: &[u8]) -> Ordering
    ensures { result ≡ slice_cmp nat_cmp entry.now.name name.now }
{
    entry.name.as_bytes().cmp(name)
}

/// The width at the name among entries in byte order of their names.
#[tactic(auto, using(crate::proofs::Places::in_range))]
pub(crate) fn width_among(entries: &[MatrixWidth], name: &[u8]) -> Option<u16>
    requires names { IsInNameOrder entries.now }
    requires widths { AllByRecursion (λ entry. IsWidth entry.width) entries.now }
    ensures value { result ≡ width_among entries.now name.now }
    ensures range { IfSome result (λ width. IsWidth width) }
{
    match entries.binary_search_by(|entry| compare_names(entry, name)) {
        Ok(at) => Some(entries[at].width),
        Err(_) => None,
    }
}

/// The same entries once more.
pub(crate) fn copied(alloc: Global, entries: &[MatrixWidth]) -> Result<Vec<MatrixWidth>, AllocError>
    ensures { IfOk result (λ v. v.items ≡ entries.now) }
{
    let mut copies = Vec::with_capacity(alloc, entries.len())?;
    for entry in entries {
        let name = entry.name.copy();
        let width = entry.width;
        copies.push(MatrixWidth { name, width })?;
    }
    Ok(copies)
}
