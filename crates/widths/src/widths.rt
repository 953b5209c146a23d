//! The measures and widths of a file.

ghost use Rattle.std.specs.Prelude.{◌≡◌, ◌⊎◌, Some, None, Ok, Err, IfSome, IfOk, IfErr};
ghost use Rattle.toml.specs.Parse.{parse_document};
ghost use Rattle.toml.specs.View.{table_view};
ghost use Rattle.widths.specs.Reading.{read_file, read_widths};
ghost use Rattle.widths.specs.declared.fault.WidthFault.TheVariants.{NotToml, OutOfMemory};
ghost use Rattle.widths.specs.Widths.{width_of, IsWidth, IsWidthFile};

use crate::entry::{MatrixWidth, copied, width_among};
use crate::fault::WidthFault;
use crate::matrix::read_matrix;
use crate::measures::{matrix_in, measures_in};
use code_table::Name;
use std::alloc::{AllocError, Global};
use std::marker::Model;
use toml::Table;

/// The measure of a slug and the widths of what stands in it, in whole units.
/// Clauses see the record of its keys, its matrices in byte order of their names.
#[derive(Drop)]
pub struct Widths {
    measure: u16,
    band_min: u16,
    band_max: u16,
    thin: u16,
    en: u16,
    em: u16,
    matrix: Vec<MatrixWidth>,
}

impl Model for Widths {
    ghost use Rattle.widths.specs.Widths.{WidthFile, width_file, IsWidthFile};

    ghost Value = { WidthFile };

    ghost view = { λ w. width_file w.measure w.band_min w.band_max w.thin w.en w.em w.matrix.items };

    ghost invariant = { λ w. IsWidthFile (width_file w.measure w.band_min w.band_max w.thin w.en w.em w.matrix.items) };
}

/// The document of a text.
fn document_of(alloc: Global, text: &str) -> Result<Table, WidthFault>
    ensures ok { IfOk result (λ document. parse_document text.now ≡ Some (table_view document)) }
    ensures err { IfErr result (λ fault. (fault ≡ OutOfMemory) ⊎ ((fault ≡ NotToml) × (parse_document text.now ≡ None))) }
{
    toml::table_from_str(alloc, text).map_err(|error| {
        if error.is_memory() {
            WidthFault::OutOfMemory
        } else {
            WidthFault::NotToml
        }
    })
}

/// The measures and widths of a document.
#[tactic(auto, unfolding(crate::specs::Reading::read_file))]
fn read_file(alloc: Global, file: &Table) -> Result<Widths, WidthFault>
    ensures ok { IfOk result (λ widths. read_file (table_view file.now) ≡ Ok widths) }
    ensures err { IfErr result (λ fault. (fault ≡ OutOfMemory) ⊎ (read_file (table_view file.now) ≡ Err fault)) }
{
    let measures = measures_in(file)?;
    let table = matrix_in(file)?;
    if measures.band_min > measures.band_max {
        return Err(WidthFault::BandsCrossed);
    }
    let matrix = read_matrix(alloc, table)?;
    Ok(Widths {
        measure: measures.measure,
        band_min: measures.band_min,
        band_max: measures.band_max,
        thin: measures.thin,
        en: measures.en,
        em: measures.em,
        matrix,
    })
}

impl Widths {
    /// The measures and widths of a TOML text: whole numbers at `measure`, `band_min`, `band_max`, `thin`, `en` and `em`,
    /// and a table `matrix` from names to widths.
    ///
    /// The first fault that holds is answered: `NotToml`; `Missing`, `WrongType` or `OutOfRange` of each key in the order
    /// of [`WidthKey`](crate::WidthKey); `BandsCrossed`; and then for the entries of `matrix` in byte order of their names
    /// `BadName`, `WrongType` or `OutOfRange`. `OutOfMemory` comes where the text could not be read or the widths not be
    /// kept for want of memory.
    #[tactic(auto, unfolding(crate::specs::Reading::read_widths))]
    pub fn read(alloc: Global, text: &str) -> Result<Widths, WidthFault>
        ensures ok { IfOk result (λ widths. read_widths (parse_document text.now) ≡ Ok widths) }
        ensures err { IfErr result (λ fault. (fault ≡ OutOfMemory) ⊎ (read_widths (parse_document text.now) ≡ Err fault)) }
    {
        let file = document_of(alloc, text)?;
        read_file(alloc, &file)
    }

    /// Equal measures and widths.
    pub fn copy(&self, alloc: Global) -> Result<Widths, AllocError>
        ensures { IfOk result (λ widths. widths ≡ self.now) }
    {
        let matrix = copied(alloc, &self.matrix)?;
        Ok(Widths {
            measure: self.measure,
            band_min: self.band_min,
            band_max: self.band_max,
            thin: self.thin,
            en: self.en,
            em: self.em,
            matrix,
        })
    }

    /// The width of the matrix with this name, 1 to 999 units; `None` where the file has none of that name.
    #[tactic(auto, unfolding(crate::specs::Widths::width_of))]
    pub fn of(&self, name: &str) -> Option<u16>
        ensures value { result ≡ width_of self.now name.now }
        ensures range { IfSome result (λ width. IsWidth width) }
    {
        width_among(&self.matrix, name.as_bytes())
    }

    /// The width of this matrix, 1 to 999 units; `None` where the file has none of its name.
    #[tactic(auto, unfolding(crate::specs::Widths::width_of))]
    pub fn of_name(&self, name: &Name) -> Option<u16>
        ensures value { result ≡ width_of self.now name.now }
        ensures range { IfSome result (λ width. IsWidth width) }
    {
        let bytes = name.as_bytes();
        width_among(&self.matrix, bytes)
    }

    /// The width of a line, 1 to 65,535 units.
    pub fn measure(&self) -> u16
        ensures value { result ≡ self.now.measure }
        ensures ranges { IsWidthFile self.now }
    {
        self.measure
    }

    /// The least width of a band, 1 to 999 units and not above the greatest.
    pub fn band_min(&self) -> u16
        ensures value { result ≡ self.now.band_min }
        ensures ranges { IsWidthFile self.now }
    {
        self.band_min
    }

    /// The greatest width of a band, 1 to 999 units.
    pub fn band_max(&self) -> u16
        ensures value { result ≡ self.now.band_max }
        ensures ranges { IsWidthFile self.now }
    {
        self.band_max
    }

    /// The width of a thin space, 1 to 999 units.
    pub fn thin(&self) -> u16
        ensures value { result ≡ self.now.thin }
        ensures ranges { IsWidthFile self.now }
    {
        self.thin
    }

    /// The width of an en space, 1 to 999 units.
    pub fn en(&self) -> u16
        ensures value { result ≡ self.now.en }
        ensures ranges { IsWidthFile self.now }
    {
        self.en
    }

    /// The width of an em space, 1 to 999 units.
    pub fn em(&self) -> u16
        ensures value { result ≡ self.now.em }
        ensures ranges { IsWidthFile self.now }
    {
        self.em
    }
}
