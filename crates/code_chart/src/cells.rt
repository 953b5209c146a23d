//! The cells of a chart: each combination with its holes and both its meanings.

ghost use Rattle.std.specs.Prelude.{◌≡◌, ◌++◌, ◌<◌, ◌≤◌, OnOk, option_copied, flat_map, map, codes};
ghost use Rattle.code_table.specs.Tables.{mean};
ghost use Rattle.code_table.specs.declared.case.Case.TheVariants as cases;
ghost use Rattle.code_chart.specs.Cells.{cell, chart};
ghost use Rattle.code_chart.specs.Document.{corner, lead_text, units_text, between_text, lacking_text, span_text, shared_text, twin_text, name_text, nothing_text, told_text, said_by, card_lead, card_text, paper_text, number_text, view_text, open_text, close_text, title_text, ground_text, cell_at, cell_text, cells_text};

use crate::lengths::{
    CARD_HEIGHT, CARD_WIDTH, CELL_HEIGHT, CELL_WIDTH, CELLS_LEFT, CELLS_TOP, FRAME_NUMBER_FOOT,
    LACKING_LEFT, NAME_MIDDLE, NAME_WIDTH, NOTE_LEFT, NOTE_STEP, PAPER_INSET, PAPER_MIDDLE,
    SHIFT_FOOT, SPAN_LEFT, UNSHIFT_FOOT,
};
use crate::said::{MeaningNote, MeaningSpan, tell};
use code_table::{Case, CodeTable, Meaning};
use std::alloc::AllocError;
use tape_drawing::{
    DrawingForm, Point, Room, Style, add_count, add_escaped, add_fitted, add_group, add_holes,
    add_pair, add_paper, add_words, mark_style, mark_word, meaning_word,
};
use widths::Widths;

/// What the cells are made of.
#[derive(Clone, Copy)]
pub(crate) struct Sheet<'a> {
    pub page: DrawingForm,
    pub table: &'a CodeTable,
    pub widths: &'a Widths,
}

/// A combination and where what is said of it stands, on a sheet that is not too wide or high.
#[derive(Clone, Copy)]
struct ChartSpot {
    frame: u8,
    at: Point,
    ghost known: { frame < 64 },
    ghost on_sheet: { (at.x ≤ 1000) × (at.y ≤ 3000) },
}

/// The upper left corner of a cell.
fn corner(frame: u8) -> Point
    ensures value { result ≡ corner frame }
    ensures small { (result.x ≤ 1000) × (result.y ≤ 2900) }
{
    Point {
        x: CELLS_LEFT + CELL_WIDTH * u64::from(frame % 8),
        y: CELLS_TOP + CELL_HEIGHT * u64::from(frame / 8),
    }
}

/// Adds what begins words of a class at a place.
#[tactic(auto, unfolding(crate::specs::Document::lead_text))]
fn add_lead(text: &mut Vec<u8>, lead: &str, at: Point) -> Result<(), AllocError>
    ensures { OnOk result (text.new.items ≡ text.old.items ++ lead_text lead.now at) }
{
    add_pair(text, lead, "' y='", (at.x, at.y))
}

/// Adds a width in units.
#[tactic(auto, unfolding(crate::specs::Document::units_text))]
fn add_units(text: &mut Vec<u8>, at: Point, units: u64) -> Result<(), AllocError>
    ensures { OnOk result (text.new.items ≡ text.old.items ++ units_text at units) }
{
    add_lead(text, "<text class='w' x='", at)?;
    add_count(text, "'>", units)?;
    text.extend_from_slice(b"</text>\n")
}

/// Adds the least and the greatest width of a spaceband.
#[tactic(auto, unfolding(crate::specs::Document::between_text))]
fn add_between(text: &mut Vec<u8>, at: Point, least: u64, greatest: u64) -> Result<(), AllocError>
    ensures { OnOk result (text.new.items ≡ text.old.items ++ between_text at least greatest) }
{
    add_lead(text, "<text class='w' x='", at)?;
    add_pair(text, "'>", "-", (least, greatest))?;
    text.extend_from_slice(b"</text>\n")
}

/// Adds the mark of a matrix without a width.
#[tactic(auto, unfolding(crate::specs::Document::lacking_text))]
fn add_lacking(text: &mut Vec<u8>, at: Point) -> Result<(), AllocError>
    ensures { OnOk result (text.new.items ≡ text.old.items ++ lacking_text at) }
{
    add_lead(text, "<text class='o x' x='", at)?;
    text.extend_from_slice(b"'>no width</text>\n")
}

/// Adds how wide a meaning is, or that it lacks a width.
fn add_span(text: &mut Vec<u8>, spot: ChartSpot, span: MeaningSpan) -> Result<(), AllocError>
    ensures { OnOk result (text.new.items ≡ text.old.items ++ span_text spot.at span) }
{
    let at = spot.at;
    let beside = Point {
        x: at.x + SPAN_LEFT,
        y: at.y,
    };
    let below = Point {
        x: at.x + LACKING_LEFT,
        y: at.y + NOTE_STEP,
    };
    match span {
        MeaningSpan::Nothing => Ok(()),
        MeaningSpan::Units(units) => add_units(text, beside, u64::from(units)),
        MeaningSpan::Between { least, greatest } => {
            add_between(text, beside, u64::from(least), u64::from(greatest))
        }
        MeaningSpan::Lacking => add_lacking(text, below),
    }
}

/// Adds the mark of a meaning that another combination has too.
#[tactic(auto, unfolding(crate::specs::Document::shared_text))]
fn add_shared(text: &mut Vec<u8>, at: Point, other: u8) -> Result<(), AllocError>
    ensures { OnOk result (text.new.items ≡ text.old.items ++ shared_text at other) }
{
    add_lead(text, "<text class='g' x='", at)?;
    add_count(text, "'>= ", u64::from(other))?;
    text.extend_from_slice(b"</text>\n")
}

/// The same, where there is one.
fn add_twin(text: &mut Vec<u8>, spot: ChartSpot, twin: Option<u8>) -> Result<(), AllocError>
    ensures { OnOk result (text.new.items ≡ text.old.items ++ twin_text spot.at twin) }
{
    let below = Point {
        x: spot.at.x + NOTE_LEFT,
        y: spot.at.y + NOTE_STEP,
    };
    match twin {
        Some(other) => add_shared(text, below, other),
        None => Ok(()),
    }
}

/// Adds the name of a matrix, or the letters of a function.
fn add_name(text: &mut Vec<u8>, spot: ChartSpot, meaning: &Meaning) -> Result<(), AllocError>
    ensures { OnOk result (text.new.items ≡ text.old.items ++ name_text spot.at meaning.now) }
{
    let word = mark_word(Some(meaning));
    let style = mark_style(Some(meaning));
    let middle = Point {
        x: spot.at.x + NAME_MIDDLE,
        y: spot.at.y,
    };
    if word.len() >= 4 {
        let room = Room {
            at: middle,
            length: NAME_WIDTH,
        };
        add_fitted(text, style, room, word)
    } else {
        add_words(text, style, middle, word)
    }
}

/// Adds the mark of a combination without a meaning.
#[tactic(auto, unfolding(crate::specs::Document::nothing_text))]
fn add_nothing(text: &mut Vec<u8>, spot: ChartSpot) -> Result<(), AllocError>
    ensures { OnOk result (text.new.items ≡ text.old.items ++ nothing_text spot.at) }
{
    let middle = Point {
        x: spot.at.x + NAME_MIDDLE,
        y: spot.at.y,
    };
    let below = Point {
        x: spot.at.x + NOTE_LEFT,
        y: spot.at.y + NOTE_STEP,
    };
    add_words(text, Style::Unknown, middle, b"?")?;
    add_words(text, Style::Fault, below, b"no meaning")
}

/// Adds what is told of a meaning.
fn add_told(text: &mut Vec<u8>, spot: ChartSpot, told: MeaningNote) -> Result<(), AllocError>
    ensures { OnOk result (text.new.items ≡ text.old.items ++ told_text spot.at told) }
{
    add_span(text, spot, told.span)?;
    add_twin(text, spot, told.twin)
}

/// Adds what is said of a meaning of a frame.
fn add_said(
    text: &mut Vec<u8>,
    sheet: &Sheet<'_>,
    spot: ChartSpot,
    meaning: Option<&Meaning>,
) -> Result<(), AllocError>
    ensures { OnOk result (text.new.items ≡ text.old.items ++ said_by sheet.now spot.frame spot.at (option_copied meaning.entry)) }
{
    match meaning {
        Some(meaning) => {
            let told = tell(sheet.table, sheet.widths, spot.frame, meaning);
            add_name(text, spot, meaning)?;
            add_told(text, spot, told)
        }
        None => add_nothing(text, spot),
    }
}

/// What begins the card of a cell.
fn card_lead(meaning: Option<&Meaning>) -> &'static str
    ensures { result.now ≡ card_lead (option_copied meaning.entry) }
{
    match meaning {
        Some(_) => "<rect class='m' x='",
        None => "<rect class='v' x='",
    }
}

/// Adds the card of a cell.
#[tactic(auto, unfolding(crate::specs::Document::card_text))]
fn add_card(text: &mut Vec<u8>, meaning: Option<&Meaning>, at: Point) -> Result<(), AllocError>
    ensures { OnOk result (text.new.items ≡ text.old.items ++ card_text (option_copied meaning.entry) at) }
{
    add_lead(text, card_lead(meaning), at)?;
    add_pair(text, "' width='", "' height='", (CARD_WIDTH, CARD_HEIGHT))?;
    text.extend_from_slice(b"'/>\n")
}

/// Adds the paper of a combination with its holes.
#[tactic(auto, unfolding(crate::specs::Document::paper_text))]
fn add_strip(text: &mut Vec<u8>, spot: ChartSpot) -> Result<(), AllocError>
    ensures { OnOk result (text.new.items ≡ text.old.items ++ paper_text spot.frame spot.at) }
{
    let paper = Point {
        x: spot.at.x + PAPER_INSET,
        y: spot.at.y + PAPER_INSET,
    };
    let column = Point {
        x: spot.at.x + PAPER_MIDDLE,
        y: spot.at.y + PAPER_INSET,
    };
    add_paper(text, paper, 1)?;
    text.extend_from_slice(b"<path d='")?;
    add_holes(text, spot.frame, column)?;
    text.extend_from_slice(b"'/>\n")
}

/// Adds its number below them.
#[tactic(auto, unfolding(crate::specs::Document::number_text))]
fn add_frame_number(text: &mut Vec<u8>, spot: ChartSpot) -> Result<(), AllocError>
    ensures { OnOk result (text.new.items ≡ text.old.items ++ number_text spot.frame spot.at) }
{
    let below = Point {
        x: spot.at.x + PAPER_MIDDLE,
        y: spot.at.y + FRAME_NUMBER_FOOT,
    };
    add_lead(text, "<text class='n' x='", below)?;
    add_count(text, "'>", u64::from(spot.frame))?;
    text.extend_from_slice(b"</text>\n")
}

/// Adds what begins the drawing of a cell.
#[tactic(auto, unfolding(crate::specs::Document::view_text))]
fn add_view(text: &mut Vec<u8>, number: u64, at: Point) -> Result<(), AllocError>
    ensures { OnOk result (text.new.items ≡ text.old.items ++ view_text number at) }
{
    add_count(text, "<svg id='frame", number)?;
    add_pair(text, "' viewBox='", " ", (at.x, at.y))?;
    add_pair(text, " ", " ", (CELL_WIDTH, CELL_HEIGHT))?;
    text.extend_from_slice(b"'>\n")
}

/// Adds what begins a cell.
fn add_open(text: &mut Vec<u8>, page: DrawingForm, frame: u8, at: Point) -> Result<(), AllocError>
    ensures { OnOk result (text.new.items ≡ text.old.items ++ open_text page frame at) }
{
    match page {
        DrawingForm::Svg => add_group(text, "<g id='frame", u64::from(frame)),
        DrawingForm::Html => add_view(text, u64::from(frame), at),
    }
}

/// Adds what ends it.
fn add_close(text: &mut Vec<u8>, page: DrawingForm) -> Result<(), AllocError>
    ensures { OnOk result (text.new.items ≡ text.old.items ++ close_text page) }
{
    match page {
        DrawingForm::Svg => text.extend_from_slice(b"</g>\n"),
        DrawingForm::Html => text.extend_from_slice(b"</svg>\n"),
    }
}

/// Adds the words of a cell, for who points at it.
#[tactic(auto, unfolding(crate::specs::Document::title_text))]
fn add_title(
    text: &mut Vec<u8>,
    frame: u8,
    unshift: Option<&Meaning>,
    shift: Option<&Meaning>,
) -> Result<(), AllocError>
    ensures { OnOk result (text.new.items ≡ text.old.items ++ title_text frame (option_copied unshift.entry) (option_copied shift.entry)) }
{
    add_count(text, "<title>", u64::from(frame))?;
    text.extend_from_slice(b": ")?;
    add_escaped(text, meaning_word(unshift))?;
    text.extend_from_slice(b", ")?;
    add_escaped(text, meaning_word(shift))?;
    text.extend_from_slice(b"</title>\n")
}

/// Adds the words of a cell, its card, its holes and its number.
#[tactic(auto, using(crate::proofs::Chart::meaning_in_cell))]
fn add_ground(text: &mut Vec<u8>, sheet: &Sheet<'_>, spot: ChartSpot) -> Result<(), AllocError>
    ensures { OnOk result (text.new.items ≡ text.old.items ++ ground_text (cell sheet.now.widths.now (mean sheet.now.table.now) spot.frame) spot.at) }
{
    let unshift = sheet.table.meaning(Case::Unshift, spot.frame);
    let shift = sheet.table.meaning(Case::Shift, spot.frame);
    add_title(text, spot.frame, unshift, shift)?;
    add_card(text, unshift, spot.at)?;
    add_strip(text, spot)?;
    add_frame_number(text, spot)
}

/// Adds a cell.
fn add_cell(text: &mut Vec<u8>, sheet: &Sheet<'_>, frame: u8) -> Result<(), AllocError>
    requires { frame < 64 }
    ensures { OnOk result (text.new.items ≡ text.old.items ++ cell_text sheet.now.page (cell sheet.now.widths.now (mean sheet.now.table.now) frame)) }
{
    let at = corner(frame);
    let above = ChartSpot {
        frame,
        at: Point {
            x: at.x,
            y: at.y + UNSHIFT_FOOT,
        },
    };
    let below = ChartSpot {
        frame,
        at: Point {
            x: at.x,
            y: at.y + SHIFT_FOOT,
        },
    };
    let unshift = sheet.table.meaning(Case::Unshift, frame);
    let shift = sheet.table.meaning(Case::Shift, frame);
    add_open(text, sheet.page, frame, at)?;
    add_ground(text, sheet, ChartSpot { frame, at })?;
    add_said(text, sheet, above, unshift)?;
    add_said(text, sheet, below, shift)?;
    add_close(text, sheet.page)
}

/// Adds the cells of a chart.
pub(crate) fn add_cells(text: &mut Vec<u8>, sheet: &Sheet<'_>) -> Result<(), AllocError>
    ensures { OnOk result (text.new.items ≡ text.old.items ++ cells_text sheet.now.page (chart sheet.now.widths.now (mean sheet.now.table.now))) }
{
    for frame in 0..64u8 {
        add_cell(text, sheet, frame)?;
    }
    Ok(())
}
