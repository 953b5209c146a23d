//! The six measures of a width file in a TOML document.

ghost use Rattle.std.specs.Prelude.{◌≡◌, ◌≤◌, IfOk, MatchResult, Ok, Err, option_map};
ghost use Rattle.toml.specs.Data.{get_member};
ghost use Rattle.toml.specs.View.{view, table_view};
ghost use Rattle.widths.specs.Numbers.{number_of, number_at, measures_in, matrix_in, AreMeasures};

use crate::fault::{WidthFault, WidthKey};
use toml::{Table, Value};

/// The greatest width of a line.
const MOST_MEASURE: u16 = 65535;

/// The greatest width of what stands in a line.
pub(crate) const MOST_WIDTH: u16 = 999;

/// The width of a line, and the widths of bands and fixed spaces.
#[derive(Clone, Copy)]
pub(crate) struct Measures {
    pub measure: u16,
    pub band_min: u16,
    pub band_max: u16,
    pub thin: u16,
    pub en: u16,
    pub em: u16,
}

/// The number of the value: whole, and from 1 to the most.
#[tactic(auto, unfolding(crate::specs::Numbers::number_of, crate::specs::Numbers::in_range))]
pub(crate) fn number_of(key: WidthKey, most: u16, value: &Value) -> Result<u16, WidthFault>
    ensures value { result ≡ number_of key most (view value.now) }
    ensures range { IfOk result (λ number. (1 ≤ number) × (number ≤ most)) }
{
    match value.as_integer() {
        None => Err(WidthFault::WrongType { key }),
        Some(number) if 1 <= number && number <= i64::from(most) => Ok(number as u16),
        Some(_) => Err(WidthFault::OutOfRange { key }),
    }
}

/// The value at the key of this name.
#[tactic(auto, using(toml::proofs::Views::table_get))]
fn value_at<'a>(file: &'a Table, name: &str) -> Option<&'a Value>
    ensures { option_map (λ v. view v.now) result ≡ get_member name.now (table_view file.now) }
{
    file.get(name)
}

/// The number at the key of this name.
#[tactic(auto, unfolding(crate::specs::Numbers::number_at))]
fn number_at(file: &Table, key: WidthKey, name: &str, most: u16) -> Result<u16, WidthFault>
    ensures value { result ≡ number_at key name.now most (table_view file.now) }
    ensures range { IfOk result (λ number. (1 ≤ number) × (number ≤ most)) }
{
    match value_at(file, name) {
        Some(value) => number_of(key, most, value),
        None => Err(WidthFault::Missing { key }),
    }
}

/// The six measures.
#[tactic(auto, unfolding(crate::specs::Numbers::measures_in))]
pub(crate) fn measures_in(file: &Table) -> Result<Measures, WidthFault>
    ensures value { result ≡ measures_in (table_view file.now) }
    ensures ranges { IfOk result (λ measures. AreMeasures measures) }
{
    Ok(Measures {
        measure: number_at(file, WidthKey::Measure, "measure", MOST_MEASURE)?,
        band_min: number_at(file, WidthKey::BandMin, "band_min", MOST_WIDTH)?,
        band_max: number_at(file, WidthKey::BandMax, "band_max", MOST_WIDTH)?,
        thin: number_at(file, WidthKey::Thin, "thin", MOST_WIDTH)?,
        en: number_at(file, WidthKey::En, "en", MOST_WIDTH)?,
        em: number_at(file, WidthKey::Em, "em", MOST_WIDTH)?,
    })
}

/// The table of the matrices.
#[tactic(auto, unfolding(crate::specs::Numbers::matrix_in))]
pub(crate) fn matrix_in(file: &Table) -> Result<&Table, WidthFault>
    ensures { MatchResult result (λ table. matrix_in (table_view file.now) ≡ Ok (table_view table.now)) (λ e. matrix_in (table_view file.now) ≡ Err e) }
{
    match value_at(file, "matrix") {
        Some(value) => match value.as_table() {
            Some(table) => Ok(table),
            None => Err(WidthFault::WrongType {
                key: WidthKey::Matrix,
            }),
        },
        None => Err(WidthFault::Missing {
            key: WidthKey::Matrix,
        }),
    }
}
