//! The row of a line in the report of `fit`.

ghost use Rattle.std.specs.Prelude.{◌≡◌, ◌++◌, replicate, decimal, flat_map, OnOk, length, codes, [], ◌∷◌};
ghost use Rattle.columns.specs.Columns.{on_the_right, on_the_left};
ghost use Rattle.editor_commands.specs.Report.{item_read, slug_column, line_columns, row_text, rest_row};

use crate::verdict_words::{fault_words, verdict_words};
use columns::{put_blanks, put_left, put_number};
use itoa::Buffer;
use line_check::SetFault;
use line_fit::{LineFit, Verdict};
use slug_reader::Item;
use std::alloc::{AllocError, Global};

/// Writes what is read of an item.
fn put_item(text: &mut Vec<u8>, item: &Item) -> Result<(), AllocError>
    ensures { OnOk result (text.new.items ≡ text.old.items ++ item_read item.now) }
{
    match item {
        Item::Matrix { name, .. } => text.extend_from_slice(name.as_bytes()),
        _ => text.extend_from_slice(b" "),
    }
}

/// Writes what is read of a line.
fn put_items(text: &mut Vec<u8>, items: &[Item]) -> Result<(), AllocError>
    ensures { OnOk result (text.new.items ≡ text.old.items ++ flat_map item_read items.now) }
{
    for item in items {
        put_item(text, item)?;
    }
    Ok(())
}

/// Writes the number of a slug, where there is one.
fn put_slug_column(text: &mut Vec<u8>, number: usize, verdict: &Verdict) -> Result<(), AllocError>
    ensures { OnOk result (text.new.items ≡ text.old.items ++ slug_column number verdict.now) }
{
    match verdict {
        Verdict::Sets(_) => put_number(text, 4, number as u128),
        _ => put_blanks(text, 4),
    }
}

/// Writes a range of widths.
fn put_widths(text: &mut Vec<u8>, least: u32, greatest: u32) -> Result<(), AllocError>
    ensures { OnOk result (text.new.items ≡ text.old.items ++ (on_the_right 4 (decimal least) ++ codes " .. " ++ on_the_left 3 (decimal greatest))) }
{
    let mut digits = Buffer::new();
    put_number(text, 4, u128::from(least))?;
    text.extend_from_slice(b" .. ")?;
    put_left(text, 3, digits.format(greatest).as_bytes())
}

/// Writes a verdict, and behind it the widths of the line and what is read of it, where it has an item.
fn put_line_columns(text: &mut Vec<u8>, verdict: &[u8], fit: &LineFit) -> Result<(), AllocError>
    ensures { OnOk result (text.new.items ≡ text.old.items ++ line_columns verdict.now fit.now.least fit.now.greatest fit.now.line) }
{
    let Some(line) = &fit.line else {
        return text.extend_from_slice(verdict);
    };
    put_left(text, 15, verdict)?;
    text.push(b' ')?;
    put_widths(text, fit.least, fit.greatest)?;
    text.extend_from_slice(b"  ")?;
    put_items(text, line.items.as_slice())
}

/// The number of a line, and the one that its slug has, where it has one.
#[derive(Clone, Copy)]
pub(crate) struct RowNumbers {
    pub line: usize,
    pub slug: usize,
}

/// Writes the row of a line with its numbers.
pub(crate) fn put_row(
    alloc: Global,
    text: &mut Vec<u8>,
    numbers: RowNumbers,
    fit: &LineFit,
) -> Result<(), AllocError>
    ensures { OnOk result (text.new.items ≡ text.old.items ++ row_text numbers.line numbers.slug fit.now) }
{
    let verdict = verdict_words(alloc, &fit.verdict)?;
    put_number(text, 4, numbers.line as u128)?;
    text.extend_from_slice(b"  ")?;
    put_slug_column(text, numbers.slug, &fit.verdict)?;
    text.extend_from_slice(b"  ")?;
    put_line_columns(text, verdict.as_bytes(), fit)?;
    text.extend_from_slice(b"\n")
}

/// Writes the row of what stands behind the last line, where that is wrong.
pub(crate) fn put_rest(
    alloc: Global,
    text: &mut Vec<u8>,
    rest: Option<SetFault>,
) -> Result<(), AllocError>
    ensures { OnOk result (text.new.items ≡ text.old.items ++ rest_row rest) }
{
    let Some(fault) = rest else {
        return Ok(());
    };
    let words = fault_words(alloc, fault)?;
    put_number(text, 4, u128::from(fault.line))?;
    put_blanks(text, 8)?;
    text.extend_from_slice(words.as_bytes())?;
    text.extend_from_slice(b"\n")
}
