//! The text of a galley.

ghost use Rattle.std.specs.Prelude.{◌≡◌, ◌∷◌, [], replicate, ◌-◌, OnOk, OnErr, flat_map};
ghost use Rattle.std.specs.Io.KnownBytes.{Appends};
ghost use Rattle.line_check.specs.Galley.{number_text, kind_text, sort_text, head_text, slug_text, galley_from, galley_of};
ghost use Rattle.streams.specs.Fronts.{AppendsFront};

use crate::slug::{Kind, Slug};
use crate::sort::Sort;
use itoa::Buffer;
use slug_reader::Rail;
use std::io::Write;
use streams::{CannotWrite as WriteFault, put_all, put_parts};

/// The letter of a kind.
fn kind_text(kind: Kind) -> &'static [u8]
    ensures { result.now ≡ kind_text kind ∷ [] }
{
    match kind {
        Kind::J => b"J",
        Kind::L => b"L",
        Kind::C => b"C",
        Kind::R => b"R",
    }
}

/// The zeros before so many digits, so that there are at least four.
fn zeros(digits: usize) -> &'static [u8]
    ensures { result.now ≡ replicate (4 - digits) 48 }
{
    match digits {
        0 => b"0000",
        1 => b"000",
        2 => b"00",
        3 => b"0",
        _ => b"",
    }
}

/// Writes a blank and a sort.
fn put_sort<W: Write>(out: &mut W, sort: &Sort) -> Result<(), WriteFault>
    ensures ok { OnOk result (Appends (W.contents out.old) (W.contents out.new) (sort_text sort.now)) }
    ensures err { OnErr result (AppendsFront (W.contents out.old) (W.contents out.new) (sort_text sort.now)) }
{
    let mut digits = Buffer::new();
    match sort {
        Sort::Matrix { name, rail, .. } => {
            let mark: &[u8] = match rail {
                Rail::Lower => b" ",
                Rail::Upper => b" ^",
            };
            put_parts(out, &[mark, name.as_bytes()])
        }
        Sort::Band { width } => put_parts(out, &[b" _", digits.format(*width).as_bytes()]),
        Sort::Space { width } => put_parts(out, &[b" ~", digits.format(*width).as_bytes()]),
    }
}

/// Writes sorts, each behind a blank.
fn put_sorts<W: Write>(out: &mut W, sorts: &[Sort]) -> Result<(), WriteFault>
    ensures ok { OnOk result (Appends (W.contents out.old) (W.contents out.new) (flat_map sort_text sorts.now)) }
    ensures err { OnErr result (AppendsFront (W.contents out.old) (W.contents out.new) (flat_map sort_text sorts.now)) }
{
    for sort in sorts {
        put_sort(out, sort)?;
    }
    Ok(())
}

/// Writes the number of a slug, its kind, left and right.
fn put_head<W: Write>(out: &mut W, number: usize, slug: &Slug) -> Result<(), WriteFault>
    ensures ok { OnOk result (Appends (W.contents out.old) (W.contents out.new) (head_text number slug.now)) }
    ensures err { OnErr result (AppendsFront (W.contents out.old) (W.contents out.new) (head_text number slug.now)) }
{
    let mut number_digits = Buffer::new();
    let mut left_digits = Buffer::new();
    let mut right_digits = Buffer::new();
    let number = number_digits.format(number).as_bytes();
    put_parts(
        out,
        &[
            zeros(number.len()),
            number,
            b" ",
            kind_text(slug.kind),
            b" ",
            left_digits.format(slug.left).as_bytes(),
            b" ",
            right_digits.format(slug.right).as_bytes(),
        ],
    )
}

/// Writes the line of a slug.
fn put_slug<W: Write>(out: &mut W, number: usize, slug: &Slug) -> Result<(), WriteFault>
    ensures ok { OnOk result (Appends (W.contents out.old) (W.contents out.new) (slug_text number slug.now)) }
    ensures err { OnErr result (AppendsFront (W.contents out.old) (W.contents out.new) (slug_text number slug.now)) }
{
    put_head(out, number, slug)?;
    put_sorts(out, slug.items.as_slice())?;
    put_all(out, b"\n")
}

/// Writes a galley: a line for each slug, with its number from 1 in at least four digits, its kind, its left, its
/// right and its items. Where the writer fails, it has a front of this text.
pub fn galley<W: Write>(slugs: &[Slug], out: &mut W) -> Result<(), WriteFault>
    ensures ok { OnOk result (Appends (W.contents out.old) (W.contents out.new) (galley_of slugs.now)) }
    ensures err { OnErr result (AppendsFront (W.contents out.old) (W.contents out.new) (galley_of slugs.now)) }
{
    for (before, slug) in slugs.iter().enumerate() {
        put_slug(out, before + 1, slug)?;
    }
    Ok(())
}
