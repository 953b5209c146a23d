//! The row of a frame in a survey.

ghost use Rattle.std.specs.Prelude.{◌≡◌, ◌++◌, ◌<◌, OnOk, option_copied, flat_map};
ghost use Rattle.code_table.specs.Tables.{mean};
ghost use Rattle.tape_frames.specs.Holes.{holes_of};
ghost use Rattle.reel_commands.specs.Survey.{meaning_word, lack_in, lack_word, lack_of, frame_row, place_line, tape_lines};

use crate::around::put_around;
use crate::places::{first_three, places_in};
use crate::surveying::Surveyed;
use code_table::{Case, CodeTable, Meaning};
use columns::{put_digits, put_left, put_number};
use std::alloc::AllocError;
use tape_frames::holes;
use widths::Widths;

/// The word of a meaning: a matrix by its name, a function by its own, and a line where there is none.
fn meaning_word<'a>(meaning: Option<&'a Meaning>) -> &'a [u8]
    ensures { result.now ≡ meaning_word (option_copied meaning.entry) }
{
    match meaning {
        None => b"-",
        Some(Meaning::Matrix(name)) => name.as_bytes(),
        Some(Meaning::Shift) => b"@shift",
        Some(Meaning::Unshift) => b"@unshift",
        Some(Meaning::Elevate) => b"@elevate",
        Some(Meaning::Return) => b"@return",
        Some(Meaning::Spaceband) => b"@spaceband",
        Some(Meaning::Thin) => b"@thin",
        Some(Meaning::En) => b"@en",
        Some(Meaning::Em) => b"@em",
        Some(Meaning::Upper) => b"@upper",
        Some(Meaning::Lower) => b"@lower",
        Some(Meaning::QuadLeft) => b"@quadleft",
        Some(Meaning::QuadCenter) => b"@quadcenter",
        Some(Meaning::QuadRight) => b"@quadright",
        Some(Meaning::Ignore) => b"@ignore",
    }
}

/// What a frame may lack.
#[derive(Clone, Copy, PartialEq, Eq)]
pub(crate) enum Lack {
    /// The table says nothing of it.
    Meaning,
    /// It means a matrix of which the widths say nothing.
    Width,
}

/// What a frame lacks that means this.
fn lack_in(widths: &Widths, meaning: Option<&Meaning>) -> Option<Lack>
    ensures { result ≡ lack_in widths.now (option_copied meaning.entry) }
{
    match meaning {
        None => Some(Lack::Meaning),
        Some(Meaning::Matrix(name)) => match widths.of_name(name) {
            Some(_) => None,
            None => Some(Lack::Width),
        },
        Some(_) => None,
    }
}

/// The word of what a frame lacks in each case.
fn lack_word(first: Option<Lack>, second: Option<Lack>) -> &'static str
    ensures { result.now ≡ lack_word first second }
{
    match first {
        Some(Lack::Meaning) => "meaning",
        Some(Lack::Width) => "width",
        None => { if second.is_some() { "width" } else { "" } }
    }
}

/// What a frame lacks by a table and widths: a meaning, or a matrix of it a width.
pub(crate) fn lack_of(table: &CodeTable, widths: &Widths, frame: u8) -> &'static str
    ensures { result.now ≡ lack_of (mean table.now) widths.now frame }
{
    lack_word(
        lack_in(widths, table.meaning(Case::Unshift, frame)),
        lack_in(widths, table.meaning(Case::Shift, frame)),
    )
}

/// Writes the holes of a frame.
fn put_holes(text: &mut Vec<u8>, frame: u8) -> Result<(), AllocError>
    requires { frame < 64 }
    ensures { OnOk result (text.new.items ≡ text.old.items ++ holes_of frame) }
{
    match holes(frame) {
        Some(row) => text.extend_from_slice(&row),
        None => Ok(()),
    }
}

/// A code table and a width file.
#[derive(Clone, Copy)]
pub(crate) struct Chart<'a> {
    pub table: &'a CodeTable,
    pub widths: &'a Widths,
}

/// Writes the row of a frame that comes so often.
pub(crate) fn put_row(
    text: &mut Vec<u8>,
    chart: Chart<'_>,
    frame: u8,
    times: u128,
) -> Result<(), AllocError>
    requires { frame < 64 }
    ensures { OnOk result (text.new.items ≡ text.old.items ++ frame_row (mean chart.entry.table.now) chart.entry.widths.now frame times) }
{
    put_number(text, 5, u128::from(frame))?;
    text.extend_from_slice(b"  ")?;
    put_holes(text, frame)?;
    put_number(text, 9, times)?;
    text.extend_from_slice(b"  ")?;
    put_left(
        text,
        9,
        lack_of(chart.table, chart.widths, frame).as_bytes(),
    )?;
    put_left(
        text,
        14,
        meaning_word(chart.table.meaning(Case::Unshift, frame)),
    )?;
    text.extend_from_slice(meaning_word(chart.table.meaning(Case::Shift, frame)))?;
    text.extend_from_slice(b"\n")
}

/// Writes the line of a place: the tape, the place, and what stands around it.
fn put_place(
    text: &mut Vec<u8>,
    table: &CodeTable,
    surveyed: &Surveyed,
    at: usize,
) -> Result<(), AllocError>
    ensures { OnOk result (text.new.items ≡ text.old.items ++ place_line (mean table.now) surveyed.now at) }
{
    text.extend_from_slice(b"       ")?;
    text.extend_from_slice(surveyed.name.as_bytes())?;
    text.extend_from_slice(b" ")?;
    put_digits(text, at)?;
    text.extend_from_slice(b"  ")?;
    put_around(text, table, surveyed.tape.frames(), at)?;
    text.extend_from_slice(b"\n")
}

/// Writes the lines of some places in a tape.
fn put_places(
    text: &mut Vec<u8>,
    table: &CodeTable,
    surveyed: &Surveyed,
    places: &[usize],
) -> Result<(), AllocError>
    ensures { OnOk result (text.new.items ≡ text.old.items ++ flat_map (place_line (mean table.now) surveyed.now) places.now) }
{
    for place in places {
        put_place(text, table, surveyed, *place)?;
    }
    Ok(())
}

/// Writes the lines of the first three places of a frame in a tape.
pub(crate) fn put_tape_lines(
    text: &mut Vec<u8>,
    table: &CodeTable,
    frame: u8,
    surveyed: &Surveyed,
) -> Result<(), AllocError>
    ensures { OnOk result (text.new.items ≡ text.old.items ++ tape_lines (mean table.now) frame surveyed.now) }
{
    let places = places_in(*text.allocator(), frame, surveyed.tape.frames())?;
    put_places(text, table, surveyed, first_three(&places))
}
