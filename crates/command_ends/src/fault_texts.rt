//! The texts of the faults of files and of saved rows, each a line without its end.

use code_table::TableFault;
use rows_saved::RowsFault;
use std::fmt;
use tape_frames::TapeFault;
use widths::{WidthFault, WidthKey};

/// Why a text is no code table, as `table entry 3: bad frame`.
#[derive(Clone, Copy)]
pub(crate) struct TableText(pub TableFault);

impl fmt::Display for TableText {
    fn fmt<W: fmt::Write>(&self, f: &mut fmt::Formatter<W>) -> fmt::Result {
        let (entry, what) = match self.0 {
            TableFault::NotToml => return f.write_str("table: not toml"),
            TableFault::MissingCodes => return f.write_str("table: no codes"),
            TableFault::OutOfMemory => return f.write_str("out of memory"),
            TableFault::WrongType { entry } => (entry, "wrong type"),
            TableFault::BadFrame { entry } => (entry, "bad frame"),
            TableFault::DuplicateFrame { entry } => (entry, "duplicate frame"),
            TableFault::BadMeaning { entry } => (entry, "bad meaning"),
            TableFault::CaseCodeDiffers { entry } => (entry, "case code differs"),
        };
        write!(f, "table entry {entry}: {what}")
    }
}

/// The name of a key of a width file.
fn key_name(key: WidthKey) -> &'static str {
    match key {
        WidthKey::Measure => "measure",
        WidthKey::BandMin => "band_min",
        WidthKey::BandMax => "band_max",
        WidthKey::Thin => "thin",
        WidthKey::En => "en",
        WidthKey::Em => "em",
        WidthKey::Matrix | WidthKey::Entry { .. } => "matrix",
    }
}

/// A key of a width file as it stands there, or the place of a matrix.
#[derive(Clone, Copy)]
struct KeyText(WidthKey);

impl fmt::Display for KeyText {
    fn fmt<W: fmt::Write>(&self, f: &mut fmt::Formatter<W>) -> fmt::Result {
        let name = key_name(self.0);
        match self.0 {
            WidthKey::Entry { place } => write!(f, "{name} {place}"),
            _ => f.write_str(name),
        }
    }
}

/// Why a text is no width file, as `widths: missing band_min`.
#[derive(Clone, Copy)]
pub(crate) struct WidthsText(pub WidthFault);

impl fmt::Display for WidthsText {
    fn fmt<W: fmt::Write>(&self, f: &mut fmt::Formatter<W>) -> fmt::Result {
        let (what, key) = match self.0 {
            WidthFault::NotToml => return f.write_str("widths: not toml"),
            WidthFault::BandsCrossed => return f.write_str("widths: bands crossed"),
            WidthFault::BadName { place } => return write!(f, "widths: bad name {place}"),
            WidthFault::OutOfMemory => return f.write_str("out of memory"),
            WidthFault::Missing { key } => ("missing", key),
            WidthFault::WrongType { key } => ("wrong type", key),
            WidthFault::OutOfRange { key } => ("out of range", key),
        };
        write!(f, "widths: {what} {}", KeyText(key))
    }
}

/// Why bytes are no tape, as `tape: bad frame at 1`.
#[derive(Clone, Copy)]
pub(crate) struct TapeText(pub TapeFault);

impl fmt::Display for TapeText {
    fn fmt<W: fmt::Write>(&self, f: &mut fmt::Formatter<W>) -> fmt::Result {
        match self.0 {
            TapeFault::Empty => f.write_str("tape: empty"),
            TapeFault::TooLong { len } => write!(f, "tape: too long {len}"),
            TapeFault::BadFrame { at } => write!(f, "tape: bad frame at {at}"),
            TapeFault::OutOfMemory => f.write_str("out of memory"),
        }
    }
}

/// Why rows are not read or saved, as `store: wrong station`.
#[derive(Clone, Copy)]
pub(crate) struct RowsText(pub RowsFault);

impl fmt::Display for RowsText {
    fn fmt<W: fmt::Write>(&self, f: &mut fmt::Formatter<W>) -> fmt::Result {
        match self.0 {
            RowsFault::Store => f.write_str("store: refused"),
            RowsFault::WrongStation => f.write_str("store: wrong station"),
            RowsFault::WrongSchema => f.write_str("store: wrong schema"),
            RowsFault::Damaged { number } => write!(f, "store: damaged {number}"),
            RowsFault::OutOfMemory => f.write_str("out of memory"),
        }
    }
}
