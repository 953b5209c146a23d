//! The elements of a drawing, each added to its text.

ghost use Rattle.std.specs.Prelude.{◌≡◌, ◌≤◌, ◌<◌, ◌++◌, ◌^◌, OnOk, decimal, codes};
ghost use Rattle.tape_drawing.specs.Lengths.{row_frames};
ghost use Rattle.tape_drawing.specs.Styles.{style_lead};
ghost use Rattle.tape_drawing.specs.Shapes.{pair_text, count_text, words_end, sheet_text, feed_text, box_lead, group_text, view_text, shape_text, Paper, Box, Bar, Gap, Mark, Words, Fitted, Open, Close};

use crate::escaping::add_escaped;
use crate::lengths::{
    FEED_TOP, FRAME_MIDDLE, FRAME_WIDTH, MEASURE_WIDTH, OUTLINE_HEIGHT, PAGE_WIDTH, PAPER_HEIGHT,
    SLUG_HEIGHT,
};
use crate::page::DrawingForm;
use itoa::Buffer;
use std::alloc::AllocError;

/// How a piece of a line is drawn.
#[derive(Clone, Copy, PartialEq, Eq)]
pub(crate) enum Look {
    /// A matrix.
    Matrix,
    /// A spaceband.
    Band,
    /// A fixed space.
    Space,
    /// The blank beside the pieces of a quadded line.
    Blank,
    /// What runs over the measure.
    Over,
}

/// How words look.
#[derive(Clone, Copy, PartialEq, Eq)]
pub enum Style {
    /// The name of a matrix, below its frame.
    Letter,
    /// The two letters of a function, there too.
    Function,
    /// The question mark of a frame that means nothing.
    Unknown,
    /// The position of a frame.
    Position,
    /// The number of a line.
    Line,
    /// That of one which does not set.
    Faulty,
    /// That of the first of these.
    FirstFaulty,
    /// The number of a slug and its kind.
    Kind,
    /// What is said of a line that is not drawn.
    Note,
    /// What is wrong with a line of which nothing is drawn.
    Fault,
    /// What is wrong with a line, at its right end.
    Behind,
    /// Type, of the lower rail.
    Type,
    /// Type of the upper rail.
    Upper,
    /// Type that runs over the measure.
    Over,
    /// The same of the upper rail.
    UpperOver,
    /// The width of a band or a space.
    Width,
    /// What is drawn, in the head.
    Heading,
    /// The other lines of the head.
    Head,
}

/// Where an element stands: whole user units to the right and down.
#[derive(Clone, Copy)]
pub struct Point {
    pub x: u64,
    pub y: u64,
}

/// Where words stand that are fitted to a length.
#[derive(Clone, Copy)]
pub struct Room {
    pub at: Point,
    pub length: u64,
}

/// From where to where a line reaches down.
#[derive(Clone, Copy)]
pub(crate) struct Extent {
    pub top: u64,
    pub height: u64,
}

/// Adds a number.
pub fn add_number(text: &mut Vec<u8>, number: u64) -> Result<(), AllocError>
    ensures { OnOk result (text.new.items ≡ text.old.items ++ decimal number) }
{
    let mut digits = Buffer::new();
    text.extend_from_slice(digits.format(number).as_bytes())
}

/// Adds a number behind what leads to it.
#[tactic(auto, unfolding(crate::specs::Shapes::count_text))]
pub fn add_count(text: &mut Vec<u8>, lead: &str, number: u64) -> Result<(), AllocError>
    ensures { OnOk result (text.new.items ≡ text.old.items ++ count_text lead.now number) }
{
    text.extend_from_slice(lead.as_bytes())?;
    add_number(text, number)
}

/// Adds two numbers, each behind the name of its attribute.
pub fn add_pair(
    text: &mut Vec<u8>,
    lead: &str,
    between: &str,
    numbers: (u64, u64),
) -> Result<(), AllocError>
    ensures { OnOk result (text.new.items ≡ text.old.items ++ pair_text lead.now numbers.0 between.now numbers.1) }
{
    let mut digits = Buffer::new();
    text.extend_from_slice(lead.as_bytes())?;
    text.extend_from_slice(digits.format(numbers.0).as_bytes())?;
    text.extend_from_slice(between.as_bytes())?;
    text.extend_from_slice(digits.format(numbers.1).as_bytes())
}

/// Adds the paper of so many frames.
#[tactic(auto, unfolding(crate::specs::Shapes::sheet_text))]
fn add_sheet(text: &mut Vec<u8>, at: Point, frames: u64) -> Result<(), AllocError>
    requires { frames ≤ row_frames }
    ensures { OnOk result (text.new.items ≡ text.old.items ++ sheet_text at.x at.y frames) }
{
    add_pair(text, "<rect class='p' x='", "' y='", (at.x, at.y))?;
    add_pair(
        text,
        "' width='",
        "' height='",
        (FRAME_WIDTH * frames, PAPER_HEIGHT),
    )?;
    text.extend_from_slice(b"'/>\n")
}

/// Adds the paper of a row of so many frames, and its feed holes.
#[tactic(auto, unfolding(crate::specs::Shapes::shape_text, crate::specs::Shapes::feed_text))]
pub fn add_paper(text: &mut Vec<u8>, at: Point, frames: u64) -> Result<(), AllocError>
    requires { (1 ≤ frames) × (frames ≤ row_frames) × (at.x ≤ 2 ^ 40) × (at.y ≤ 2 ^ 41) }
    ensures { OnOk result (text.new.items ≡ text.old.items ++ shape_text (Paper at.x at.y frames)) }
{
    add_sheet(text, at, frames)?;
    add_pair(
        text,
        "<path class='d' d='M",
        " ",
        (at.x + FRAME_MIDDLE, at.y + FEED_TOP),
    )?;
    add_pair(text, "h", "v", (FRAME_WIDTH * frames - FRAME_MIDDLE, 0))?;
    text.extend_from_slice(b"'/>\n")
}

/// Adds the outline of a faulty frame.
#[tactic(auto, unfolding(crate::specs::Shapes::shape_text))]
pub(crate) fn add_mark(text: &mut Vec<u8>, at: Point) -> Result<(), AllocError>
    ensures { OnOk result (text.new.items ≡ text.old.items ++ shape_text (Mark at.x at.y)) }
{
    add_pair(text, "<rect class='f' x='", "' y='", (at.x, at.y))?;
    add_pair(
        text,
        "' width='",
        "' height='",
        (FRAME_WIDTH, OUTLINE_HEIGHT),
    )?;
    text.extend_from_slice(b"'/>\n")
}

/// What begins the element of a box of this look.
fn box_lead(look: Look) -> &'static str
    ensures { result.now ≡ box_lead look }
{
    match look {
        Look::Matrix => "<rect class='m' x='",
        Look::Band => "<rect class='b' x='",
        Look::Space => "<rect class='s' x='",
        Look::Blank => "<rect class='q' x='",
        Look::Over => "<rect class='v' x='",
    }
}

/// Adds the box of a piece of a line.
#[tactic(auto, unfolding(crate::specs::Shapes::shape_text))]
pub(crate) fn add_box(
    text: &mut Vec<u8>,
    look: Look,
    at: Point,
    width: u64,
) -> Result<(), AllocError>
    ensures { OnOk result (text.new.items ≡ text.old.items ++ shape_text (Box look at.x at.y width)) }
{
    add_pair(text, box_lead(look), "' y='", (at.x, at.y))?;
    add_pair(text, "' width='", "' height='", (width, SLUG_HEIGHT))?;
    text.extend_from_slice(b"'/>\n")
}

/// Adds the bar of a slug, as wide as the measure.
#[tactic(auto, unfolding(crate::specs::Shapes::shape_text))]
pub(crate) fn add_bar(text: &mut Vec<u8>, at: Point) -> Result<(), AllocError>
    ensures { OnOk result (text.new.items ≡ text.old.items ++ shape_text (Bar at.x at.y)) }
{
    add_pair(text, "<rect class='k' x='", "' y='", (at.x, at.y))?;
    add_pair(
        text,
        "' width='",
        "' height='",
        (MEASURE_WIDTH, SLUG_HEIGHT),
    )?;
    text.extend_from_slice(b"'/>\n")
}

/// Adds the gap of a loose line.
#[tactic(auto, unfolding(crate::specs::Shapes::shape_text))]
pub(crate) fn add_gap(text: &mut Vec<u8>, at: Point, width: u64) -> Result<(), AllocError>
    ensures { OnOk result (text.new.items ≡ text.old.items ++ shape_text (Gap at.x at.y width)) }
{
    add_pair(text, "<rect class='a' x='", "' y='", (at.x, at.y))?;
    add_pair(text, "' width='", "' height='", (width, SLUG_HEIGHT))?;
    text.extend_from_slice(b"'/>\n")
}

/// What begins the element of words of this style.
fn style_lead(style: Style) -> &'static str
    ensures { result.now ≡ style_lead style }
{
    match style {
        Style::Letter => "<text x='",
        Style::Function => "<text class='c' x='",
        Style::Unknown => "<text class='x' x='",
        Style::Position => "<text class='n' x='",
        Style::Line => "<text class='l' x='",
        Style::Faulty => "<text class='l x' x='",
        Style::FirstFaulty => "<text id='fault' class='l x' x='",
        Style::Kind => "<text class='g' x='",
        Style::Note => "<text class='o' x='",
        Style::Fault => "<text class='o x' x='",
        Style::Behind => "<text class='e x' x='",
        Style::Type => "<text class='t' x='",
        Style::Upper => "<text class='t u' x='",
        Style::Over => "<text class='t x' x='",
        Style::UpperOver => "<text class='t u x' x='",
        Style::Width => "<text class='w' x='",
        Style::Heading => "<text class='h' x='",
        Style::Head => "<text class='i' x='",
    }
}

/// Adds words, and ends their element.
fn add_words_end(text: &mut Vec<u8>, words: &[u8]) -> Result<(), AllocError>
    ensures { OnOk result (text.new.items ≡ text.old.items ++ words_end words.now) }
{
    add_escaped(text, words)?;
    text.extend_from_slice(b"</text>\n")
}

/// Adds words at a place, as wide as they are.
#[tactic(auto, unfolding(crate::specs::Shapes::shape_text, crate::specs::Shapes::words_text))]
pub fn add_words(
    text: &mut Vec<u8>,
    style: Style,
    at: Point,
    words: &[u8],
) -> Result<(), AllocError>
    ensures { OnOk result (text.new.items ≡ text.old.items ++ shape_text (Words style at.x at.y words.now)) }
{
    add_pair(text, style_lead(style), "' y='", (at.x, at.y))?;
    text.extend_from_slice(b"'>")?;
    add_words_end(text, words)
}

/// Adds words at a place, fitted to a length.
#[tactic(auto, unfolding(crate::specs::Shapes::shape_text, crate::specs::Shapes::fitted_text))]
pub fn add_fitted(
    text: &mut Vec<u8>,
    style: Style,
    room: Room,
    words: &[u8],
) -> Result<(), AllocError>
    ensures { OnOk result (text.new.items ≡ text.old.items ++ shape_text (Fitted style room.at.x room.at.y room.length words.now)) }
{
    add_pair(text, style_lead(style), "' y='", (room.at.x, room.at.y))?;
    text.extend_from_slice(b"' textLength='")?;
    add_number(text, room.length)?;
    text.extend_from_slice(b"' lengthAdjust='spacingAndGlyphs'>")?;
    add_words_end(text, words)
}

/// Adds what begins a group: its name, with a number.
#[tactic(auto, unfolding(crate::specs::Shapes::group_text))]
pub fn add_group(text: &mut Vec<u8>, lead: &str, number: u64) -> Result<(), AllocError>
    ensures { OnOk result (text.new.items ≡ text.old.items ++ group_text lead.now number) }
{
    add_count(text, lead, number)?;
    text.extend_from_slice(b"'>\n")
}

/// Adds what begins a drawing with the number of a line.
#[tactic(auto, unfolding(crate::specs::Shapes::view_text))]
fn add_view(text: &mut Vec<u8>, number: u64, extent: Extent) -> Result<(), AllocError>
    ensures { OnOk result (text.new.items ≡ text.old.items ++ view_text number extent.top extent.height) }
{
    add_count(text, "<svg id='line", number)?;
    add_pair(text, "' viewBox='0 ", " ", (extent.top, PAGE_WIDTH))?;
    add_count(text, " ", extent.height)?;
    text.extend_from_slice(b"'>\n")
}

/// Adds what begins the elements of a line: with its number, its upper edge and its height.
#[tactic(auto, unfolding(crate::specs::Shapes::shape_text))]
pub(crate) fn add_open(
    text: &mut Vec<u8>,
    page: DrawingForm,
    number: u64,
    extent: Extent,
) -> Result<(), AllocError>
    ensures { OnOk result (text.new.items ≡ text.old.items ++ shape_text (Open page number extent.top extent.height)) }
{
    match page {
        DrawingForm::Svg => add_group(text, "<g id='line", number),
        DrawingForm::Html => add_view(text, number, extent),
    }
}

/// Adds what ends them.
#[tactic(auto, unfolding(crate::specs::Shapes::shape_text))]
pub(crate) fn add_close(text: &mut Vec<u8>, page: DrawingForm) -> Result<(), AllocError>
    ensures { OnOk result (text.new.items ≡ text.old.items ++ shape_text (Close page)) }
{
    match page {
        DrawingForm::Svg => text.extend_from_slice(b"</g>\n"),
        DrawingForm::Html => text.extend_from_slice(b"</svg>\n"),
    }
}
