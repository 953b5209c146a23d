//! The least frames of what texts have most of, found once for a code table.

ghost use Rattle.std.specs.Prelude.{◌≡◌, ◌<◌, [], ◌∷◌, Some, IfOk, IfSome};
ghost use Rattle.code_table.specs.Texts.{matrix_of};
ghost use Rattle.code_table.specs.Tables.{mean};
ghost use Rattle.text_tape.specs.Codes.{frame_of, turn_to};
ghost use Rattle.text_tape.specs.Keys.{keyed, keyed_frame, column_of};

use crate::codes::{frame_of, turn_to};
use code_table::{Case, CodeTable, Meaning, Name};
use std::alloc::{AllocError, Global};
use std::marker::Model;

/// How many keys there are: the functions have small numbers, and the last byte that prints is 126.
const KEYS: u8 = 127;

/// A code table, with the least frames of the functions and of the matrices whose names are one byte. Clauses see the table.
#[derive(Drop)]
pub(crate) struct Codes<'a> {
    table: &'a CodeTable,
    /// The least frames of the keys in each case.
    unshift: Vec<Option<u8>>,
    shift: Vec<Option<u8>>,
    /// The least frames that select each case.
    to_unshift: Option<u8>,
    to_shift: Option<u8>,
}

impl<'a> Model for Codes<'a> {
    ghost use Rattle.std.specs.Prelude.{◌≡◌};
    ghost use Rattle.code_table.specs.Tables.{Places, mean};
    ghost use Rattle.code_table.specs.declared.case.Case.TheVariants.{Unshift, Shift};
    ghost use Rattle.text_tape.specs.Codes.{turn_to};
    ghost use Rattle.text_tape.specs.Keys.{column_of};

    ghost Value = { Places };

    ghost view = { λ c. c.table.now };

    ghost invariant = { λ c. (c.unshift.items ≡ column_of (mean c.table.now) Unshift) × (c.shift.items ≡ column_of (mean c.table.now) Shift)
        × (c.to_unshift ≡ turn_to (mean c.table.now) Unshift) × (c.to_shift ≡ turn_to (mean c.table.now) Shift) };
}

/// The matrix whose name is this byte, where a matrix may have that name.
#[tactic(auto, unfolding(code_table::specs::Texts::matrix_of))]
fn matrix_of(byte: u8) -> Option<Meaning>
    ensures { result ≡ matrix_of (byte ∷ []) }
{
    let name = Name::new(&[byte])?;
    Some(Meaning::Matrix(name))
}

/// The meaning of a key.
fn keyed(key: u8) -> Option<Meaning>
    ensures { result ≡ keyed key }
{
    match key {
        1 => Some(Meaning::Shift),
        2 => Some(Meaning::Unshift),
        3 => Some(Meaning::Elevate),
        4 => Some(Meaning::Return),
        5 => Some(Meaning::Spaceband),
        6 => Some(Meaning::Thin),
        7 => Some(Meaning::En),
        8 => Some(Meaning::Em),
        9 => Some(Meaning::Upper),
        10 => Some(Meaning::Lower),
        11 => Some(Meaning::QuadLeft),
        12 => Some(Meaning::QuadCenter),
        13 => Some(Meaning::QuadRight),
        14 => Some(Meaning::Ignore),
        _ => matrix_of(key),
    }
}

/// The key of a meaning, where it has one.
#[tactic(auto, using(crate::proofs::Keys::key_few))]
fn key_of(meaning: &Meaning) -> Option<u8>
    ensures few { IfSome result (λ key. key < 127) }
    ensures keyed { IfSome result (λ key. keyed key ≡ Some meaning.now) }
{
    match meaning {
        Meaning::Matrix(name) => match name.as_bytes() {
            [byte] => Some(*byte),
            _ => None,
        },
        Meaning::Shift => Some(1),
        Meaning::Unshift => Some(2),
        Meaning::Elevate => Some(3),
        Meaning::Return => Some(4),
        Meaning::Spaceband => Some(5),
        Meaning::Thin => Some(6),
        Meaning::En => Some(7),
        Meaning::Em => Some(8),
        Meaning::Upper => Some(9),
        Meaning::Lower => Some(10),
        Meaning::QuadLeft => Some(11),
        Meaning::QuadCenter => Some(12),
        Meaning::QuadRight => Some(13),
        Meaning::Ignore => Some(14),
    }
}

/// The least frame with the meaning of a key in the case.
fn keyed_frame(table: &CodeTable, case: Case, key: u8) -> Option<u8>
    ensures { result ≡ keyed_frame (mean table.now) case key }
{
    match keyed(key) {
        Some(meaning) => frame_of(table, case, &meaning),
        None => None,
    }
}

/// The least frames of all keys in the case.
fn column_of(alloc: Global, table: &CodeTable, case: Case) -> Result<Vec<Option<u8>>, AllocError>
    ensures { IfOk result (λ column. column.items ≡ column_of (mean table.now) case) }
{
    let mut column = Vec::new(alloc);
    for key in 0..KEYS {
        column.push(keyed_frame(table, case, key))?;
    }
    Ok(column)
}

impl<'a> Codes<'a> {
    /// The codes of a table.
    pub fn new(alloc: Global, table: &'a CodeTable) -> Result<Codes<'a>, AllocError>
        ensures { IfOk result (λ codes. codes ≡ table.now) }
    {
        Ok(Codes {
            table,
            unshift: column_of(alloc, table, Case::Unshift)?,
            shift: column_of(alloc, table, Case::Shift)?,
            to_unshift: turn_to(table, Case::Unshift),
            to_shift: turn_to(table, Case::Shift),
        })
    }

    /// The table.
    pub fn table(&self) -> &CodeTable
        ensures { result.now ≡ self.now }
    {
        self.table
    }

    /// The least frames of the keys in the case.
    fn column(&self, case: Case) -> &[Option<u8>]
        ensures { result.now ≡ column_of (mean self.now) case }
    {
        match case {
            Case::Unshift => &self.unshift,
            Case::Shift => &self.shift,
        }
    }

    /// The least frame with the meaning in the case.
    #[tactic(auto, using(crate::proofs::Keys::column_len, crate::proofs::Keys::column_at))]
    pub fn frame_of(&self, case: Case, meaning: &Meaning) -> Option<u8>
        ensures { result ≡ frame_of (mean self.now) case meaning.now }
    {
        match key_of(meaning) {
            Some(key) => self.column(case)[usize::from(key)],
            None => frame_of(self.table, case, meaning),
        }
    }

    /// The least frame that selects the case.
    pub fn turn_to(&self, case: Case) -> Option<u8>
        ensures { result ≡ turn_to (mean self.now) case }
    {
        match case {
            Case::Unshift => self.to_unshift,
            Case::Shift => self.to_shift,
        }
    }
}
