//! What is cast of a line, to the scale of the measure: a slug, or the pieces of a line that does not set.

ghost use Rattle.std.specs.Prelude.{◌≡◌, ◌++◌, ◌≤◌, ◌+◌, ◌*◌, ◌^◌, OnOk, IfOk, sum_by, length, ◌∷◌, []};
ghost use Rattle.tape_frames.specs.Frames.{most_frames};
ghost use Rattle.line_check.specs.Slugs.{sort_width};
ghost use Rattle.line_check.specs.Galley.{kind_text};
ghost use Rattle.tape_drawing.specs.Shapes.{text_of};
ghost use Rattle.tape_drawing.specs.Layout.{IsFull};
ghost use Rattle.tape_drawing.specs.Slugs.{is_over, look_in, type_style, box_shapes, blank_shapes, name_shapes, width_shapes, matrix_shapes, room_shapes, sort_shapes, item_shapes, item_width, AddsSorts, AddsItems, pieces_shapes, gap_shapes, filled_shapes};

use crate::elements::{Look, Point, Room, Style, add_bar, add_box, add_fitted, add_gap, add_words};
use crate::layout::{Stretch, across, edge};
use crate::lengths::{LETTER_WIDTH, MARGIN, NAME_FOOT, RIGHT_EDGE, WIDTH_FOOT, WIDTH_ROOM};
use code_table::Name;
use itoa::Buffer;
use line_check::{Slug, Sort};
use slug_reader::{Item, Rail};
use std::alloc::AllocError;

/// Where what is cast of a line is laid.
#[derive(Clone, Copy)]
pub(crate) struct Bed {
    /// The measure, in units.
    pub measure: u64,
    /// The upper edge, in user units.
    pub top: u64,
}

/// A stretch of a line that is drawn: none is so long or so far down that the numbers of a drawing could not say it.
#[derive(Clone, Copy)]
struct Drawn {
    stretch: Stretch,
    ghost scaled: { 1 ≤ stretch.measure },
    ghost from_near: { stretch.from ≤ 2 ^ 38 },
    ghost narrow: { stretch.width ≤ 2 ^ 38 },
    ghost top_near: { stretch.top ≤ 2 ^ 59 },
}

/// Whether a stretch runs over the measure.
fn is_over(piece: Drawn) -> bool
    ensures { result ≡ is_over piece.stretch }
{
    piece.stretch.measure < piece.stretch.from + piece.stretch.width
}

/// How a piece looks, where it lies.
fn look_in(piece: Drawn, look: Look) -> Look
    ensures { result ≡ look_in piece.stretch look }
{
    if is_over(piece) { Look::Over } else { look }
}

/// How type looks, where it lies: that of the upper rail is bold.
fn type_style(piece: Drawn, rail: Rail) -> Style
    ensures { result ≡ type_style piece.stretch rail }
{
    match rail {
        Rail::Lower => {
            if is_over(piece) {
                Style::Over
            } else {
                Style::Type
            }
        }
        Rail::Upper => {
            if is_over(piece) {
                Style::UpperOver
            } else {
                Style::Upper
            }
        }
    }
}

/// Adds the box of a stretch.
fn add_stretch(text: &mut Vec<u8>, look: Look, piece: Drawn) -> Result<(), AllocError>
    ensures { OnOk result (text.new.items ≡ text.old.items ++ text_of (box_shapes look piece.stretch)) }
{
    let stretch = piece.stretch;
    let at = Point {
        x: edge(stretch.measure, stretch.from),
        y: stretch.top,
    };
    add_box(text, look, at, across(stretch))
}

/// Adds the blank beside the pieces, if there is any.
fn add_blank(text: &mut Vec<u8>, piece: Drawn) -> Result<(), AllocError>
    ensures { OnOk result (text.new.items ≡ text.old.items ++ text_of (blank_shapes piece.stretch)) }
{
    if piece.stretch.width == 0 {
        return Ok(());
    }
    add_stretch(text, Look::Blank, piece)
}

/// Adds the name of a matrix, in the middle of its box; one of more letters is fitted to it.
fn add_name(text: &mut Vec<u8>, piece: Drawn, rail: Rail, name: &Name) -> Result<(), AllocError>
    ensures { OnOk result (text.new.items ≡ text.old.items ++ text_of (name_shapes piece.stretch rail name.now)) }
{
    let name = name.as_bytes();
    let stretch = piece.stretch;
    let width = across(stretch);
    let at = Point {
        x: edge(stretch.measure, stretch.from) + width / 2,
        y: stretch.top + NAME_FOOT,
    };
    let style = type_style(piece, rail);
    if name.len() >= 2 {
        let length = width.min(LETTER_WIDTH * name.len() as u64);
        add_fitted(text, style, Room { at, length }, name)
    } else {
        add_words(text, style, at, name)
    }
}

/// Adds the width of a band or a space in units, at the foot of its box, if there is room.
fn add_width(text: &mut Vec<u8>, piece: Drawn) -> Result<(), AllocError>
    ensures { OnOk result (text.new.items ≡ text.old.items ++ text_of (width_shapes piece.stretch)) }
{
    let stretch = piece.stretch;
    let width = across(stretch);
    if width < WIDTH_ROOM {
        return Ok(());
    }
    let mut digits = Buffer::new();
    let at = Point {
        x: edge(stretch.measure, stretch.from) + width / 2,
        y: stretch.top + WIDTH_FOOT,
    };
    add_words(
        text,
        Style::Width,
        at,
        digits.format(stretch.width).as_bytes(),
    )
}

/// Adds a matrix with its name.
#[tactic(auto, using(crate::proofs::Sequences::text_append))]
fn add_matrix(text: &mut Vec<u8>, piece: Drawn, rail: Rail, name: &Name) -> Result<(), AllocError>
    ensures { OnOk result (text.new.items ≡ text.old.items ++ text_of (matrix_shapes piece.stretch rail name.now)) }
{
    add_stretch(text, look_in(piece, Look::Matrix), piece)?;
    add_name(text, piece, rail, name)
}

/// Adds a band or a space with its width.
#[tactic(auto, using(crate::proofs::Sequences::text_append))]
fn add_room(text: &mut Vec<u8>, piece: Drawn, look: Look) -> Result<(), AllocError>
    ensures { OnOk result (text.new.items ≡ text.old.items ++ text_of (room_shapes piece.stretch look)) }
{
    add_stretch(text, look_in(piece, look), piece)?;
    add_width(text, piece)
}

/// Adds what stands in a slug.
fn add_sort(text: &mut Vec<u8>, sort: &Sort, piece: Drawn) -> Result<(), AllocError>
    ensures { OnOk result (text.new.items ≡ text.old.items ++ text_of (sort_shapes sort.now piece.stretch)) }
{
    match sort {
        Sort::Matrix { name, rail, .. } => add_matrix(text, piece, *rail, name),
        Sort::Band { .. } => add_room(text, piece, Look::Band),
        Sort::Space { .. } => add_room(text, piece, Look::Space),
    }
}

/// Adds what stands in a line that does not set.
fn add_item(text: &mut Vec<u8>, item: &Item, piece: Drawn) -> Result<(), AllocError>
    ensures { OnOk result (text.new.items ≡ text.old.items ++ text_of (item_shapes item.now piece.stretch)) }
{
    match item {
        Item::Matrix { name, rail, .. } => add_matrix(text, piece, *rail, name),
        Item::Band => add_room(text, piece, Look::Band),
        Item::Space { .. } => add_room(text, piece, Look::Space),
    }
}

/// The width of what stands in a slug, in units.
fn width_of(sort: &Sort) -> u16
    ensures { result ≡ sort_width sort.now }
{
    match sort {
        Sort::Matrix { width, .. } | Sort::Band { width } | Sort::Space { width } => *width,
    }
}

/// The width of what stands in a line whose bands have this width.
fn item_width(band: u16, item: &Item) -> u16
    ensures { result ≡ item_width band item.now }
{
    match item {
        Item::Matrix { width, .. } | Item::Space { width } => *width,
        Item::Band => band,
    }
}

/// Adds what stands in a slug from so many units on, each piece from where the last ended, and answers where the last ends.
fn add_sorts(text: &mut Vec<u8>, bed: Bed, left: u64, sorts: &[Sort]) -> Result<u64, AllocError>
    requires { (1 ≤ bed.measure) × (left + sum_by sort_width sorts.now ≤ 65535) × (bed.top ≤ 2 ^ 59) }
    ensures { IfOk result (λ to. AddsSorts bed.measure bed.top left sorts.now text.old.items text.new.items to) }
{
    let mut from = left;
    for sort in sorts {
        let width = u64::from(width_of(sort));
        let stretch = Stretch {
            measure: bed.measure,
            top: bed.top,
            from,
            width,
        };
        add_sort(text, sort, Drawn { stretch })?;
        from += width;
    }
    Ok(from)
}

/// Adds what stands in a line whose bands have this width, and answers where the last piece ends.
fn add_items(text: &mut Vec<u8>, bed: Bed, band: u16, items: &[Item]) -> Result<u64, AllocError>
    requires { (1 ≤ bed.measure) × (length items.now ≤ most_frames) × (bed.top ≤ 2 ^ 59) }
    ensures { IfOk result (λ to. AddsItems bed.measure bed.top band items.now text.old.items text.new.items to) }
{
    let mut from = 0;
    for item in items {
        let width = u64::from(item_width(band, item));
        let stretch = Stretch {
            measure: bed.measure,
            top: bed.top,
            from,
            width,
        };
        add_item(text, item, Drawn { stretch })?;
        from += width;
    }
    Ok(from)
}

/// Adds a slug: its bar, the blank on its left, its pieces, and the blank on its right.
#[tactic(auto, using(crate::proofs::Sequences::text_append))]
pub(crate) fn add_pieces(text: &mut Vec<u8>, bed: Bed, slug: &Slug) -> Result<(), AllocError>
    requires { (1 ≤ bed.measure) × (bed.measure ≤ 65535) × IsFull bed.measure slug.now × (bed.top ≤ 2 ^ 59) }
    ensures { OnOk result (text.new.items ≡ text.old.items ++ text_of (pieces_shapes bed.measure bed.top slug.now)) }
{
    let left = u64::from(slug.left);
    let before = Stretch {
        measure: bed.measure,
        top: bed.top,
        from: 0,
        width: left,
    };
    add_bar(
        text,
        Point {
            x: MARGIN,
            y: bed.top,
        },
    )?;
    add_blank(text, Drawn { stretch: before })?;
    let from = add_sorts(text, bed, left, slug.items.as_slice())?;
    let after = Stretch {
        measure: bed.measure,
        top: bed.top,
        from,
        width: u64::from(slug.right),
    };
    add_blank(text, Drawn { stretch: after })
}

/// Adds the gap between the end of a line and the measure, if there is one.
fn add_gap_behind(text: &mut Vec<u8>, bed: Bed, end: u64) -> Result<(), AllocError>
    requires { (1 ≤ bed.measure) × (bed.measure ≤ 65535) × (bed.top ≤ 2 ^ 59) }
    ensures { OnOk result (text.new.items ≡ text.old.items ++ text_of (gap_shapes bed.measure bed.top end)) }
{
    if bed.measure <= end {
        return Ok(());
    }
    let at = Point {
        x: edge(bed.measure, end),
        y: bed.top,
    };
    add_gap(text, at, RIGHT_EDGE - edge(bed.measure, end))
}

/// Adds what stands in a line whose bands have this width, and the gap behind it.
#[tactic(auto, using(crate::proofs::Sequences::text_append))]
pub(crate) fn add_filled(
    text: &mut Vec<u8>,
    bed: Bed,
    band: u16,
    items: &[Item],
) -> Result<(), AllocError>
    requires { (1 ≤ bed.measure) × (bed.measure ≤ 65535) × (length items.now ≤ most_frames) × (bed.top ≤ 2 ^ 59) }
    ensures { OnOk result (text.new.items ≡ text.old.items ++ text_of (filled_shapes bed.measure bed.top band items.now)) }
{
    let end = add_items(text, bed, band, items)?;
    add_gap_behind(text, bed, end)
}
