//! The lines of a tape, one below the other: of each its frames, and right below them what is cast of it.

ghost use Rattle.std.specs.Prelude.{◌≡◌, ◌++◌, ◌∷◌, [], ◌≤◌, ◌<◌, ◌+◌, ◌^◌, OnOk, IfOk, length, codes, decimal};
ghost use Rattle.tape_frames.specs.Frames.{most_frames};
ghost use Rattle.code_table.specs.Tables.{mean};
ghost use Rattle.slug_reader.specs.Meanings.{case_at};
ghost use Rattle.line_check.specs.Galley.{kind_text};
ghost use Rattle.line_fit.specs.Fitting.{fault_in};
ghost use Rattle.tape_drawing.specs.Shapes.{text_of, shape_text, Words};
ghost use Rattle.tape_drawing.specs.Lengths.{margin, behind_right, behind_foot, note_foot};
ghost use Rattle.tape_drawing.specs.Layout.{IsFull, IsFilled, IsWithin, after, first_spot};
ghost use Rattle.tape_drawing.specs.Lines.{cause_words, fault_words, band_in, kind_words, slug_shapes, unset_pieces, unset_shapes, foot_shapes, mark_shapes, number_style, number_shape, taped_shapes, rest_height, rest_words, rest_shapes, HoldsHere, IsTaped, IsLineOf, IsBehindLines, AreLinesOf, line_by, lines_by, tape_by};

use crate::elements::{
    Extent, Point, Style, add_bar, add_close, add_mark, add_number, add_open, add_words,
};
use crate::frames::{Strip, add_strip};
use crate::layout::{Spot, corner, first_spot, frames_in, line_height, next, rows_height};
use crate::lengths::{
    BEHIND_FOOT, BEHIND_RIGHT, KIND_FOOT, MARGIN, NOTE_FOOT, NOTE_HEIGHT, NUMBER_FOOT,
    NUMBER_RIGHT, OUTLINE_RISE,
};
use crate::page::DrawingForm;
use crate::slugs::{Bed, add_filled, add_pieces};
use code_table::{Case, CodeTable};
use itoa::Buffer;
use line_check::{Cause, Kind, SetFault, Slug};
use line_fit::{Fitting, LineFit, Verdict};
use slug_reader::Item;
use std::alloc::{AllocError, Global};
use widths::Widths;

/// What is drawn, and what it is drawn by.
#[derive(Clone, Copy)]
pub(crate) struct DrawingPlan<'a> {
    pub alloc: Global,
    pub page: DrawingForm,
    pub table: &'a CodeTable,
    pub widths: &'a Widths,
    /// The frames of the tape.
    pub tape: &'a [u8],
}

/// Where what is cast of a line stands, and the number of its slug.
#[derive(Clone, Copy)]
struct Below {
    number: u64,
    top: u64,
    ghost near: { top ≤ 2 ^ 50 },
}

/// A line that does not set, and why.
#[derive(Clone, Copy)]
struct UnsetLine<'a> {
    fault: SetFault,
    items: &'a [Item],
    ghost few: { length items.now ≤ most_frames },
}

/// Where a line begins that is drawn, not too far down, and why it does not set.
#[derive(Clone, Copy)]
struct LineStart {
    spot: Spot,
    fault: Option<SetFault>,
    ghost near: { spot.top ≤ 2 ^ 40 },
}

/// The frames of a line: where it begins, and the case that holds there.
#[derive(Clone, Copy)]
struct Taped {
    spot: Spot,
    frames: u64,
    fault: Option<SetFault>,
    case: Case,
}

/// What is reached behind a line.
#[derive(Clone, Copy)]
struct Reached {
    spot: Spot,
    case: Case,
}

/// Where what is cast of a line is laid.
fn bed_of(plan: &DrawingPlan<'_>, below: Below) -> Bed
    ensures value { (result.measure ≡ plan.now.widths.now.measure) × (result.top ≡ below.top) }
    ensures some { 1 ≤ result.measure }
    ensures small { result.measure ≤ 65535 }
{
    Bed {
        measure: u64::from(plan.widths.measure()),
        top: below.top,
    }
}

/// Adds the words of a cause.
fn add_cause(words: &mut Vec<u8>, cause: Cause) -> Result<(), AllocError>
    ensures { OnOk result (words.new.items ≡ words.old.items ++ cause_words cause) }
{
    match cause {
        Cause::UnknownCode => words.extend_from_slice(b"unknown-code"),
        Cause::NoWidth => words.extend_from_slice(b"no-width"),
        Cause::Unfinished => words.extend_from_slice(b"unfinished"),
        Cause::Overset { over } => {
            words.extend_from_slice(b"overset ")?;
            add_number(words, u64::from(over))
        }
        Cause::Loose { under } => {
            words.extend_from_slice(b"loose ")?;
            add_number(words, u64::from(under))
        }
    }
}

/// The words of a fault: its cause and its position.
fn fault_words(alloc: Global, fault: SetFault) -> Result<Vec<u8>, AllocError>
    ensures { IfOk result (λ words. words.items ≡ fault_words fault) }
{
    let mut words = Vec::new(alloc);
    add_cause(&mut words, fault.cause)?;
    words.extend_from_slice(b" at ")?;
    add_number(&mut words, u64::from(fault.at))?;
    Ok(words)
}

/// How wide the bands of a line are drawn that does not set.
fn band_in(widths: &Widths, cause: Cause) -> u16
    ensures { result ≡ band_in widths.now cause }
{
    match cause {
        Cause::Loose { .. } => widths.band_max(),
        _ => widths.band_min(),
    }
}

/// The letter of a kind.
fn kind_word(kind: Kind) -> &'static [u8]
    ensures { result.now ≡ kind_text kind ∷ [] }
{
    match kind {
        Kind::J => b"J",
        Kind::L => b"L",
        Kind::C => b"C",
        Kind::R => b"R",
    }
}

/// The number of a slug and the letter of its kind.
fn kind_words(alloc: Global, number: u64, slug: &Slug) -> Result<Vec<u8>, AllocError>
    ensures { IfOk result (λ words. words.items ≡ kind_words number slug.now) }
{
    let mut words = Vec::new(alloc);
    add_number(&mut words, number)?;
    words.extend_from_slice(b" ")?;
    words.extend_from_slice(kind_word(slug.kind))?;
    Ok(words)
}

/// Adds a slug with its number and its kind.
#[tactic(auto, using(crate::proofs::Sequences::text_append))]
fn add_slug(
    text: &mut Vec<u8>,
    plan: &DrawingPlan<'_>,
    below: Below,
    slug: &Slug,
) -> Result<(), AllocError>
    requires { IsFull plan.now.widths.now.measure slug.now }
    ensures { OnOk result (text.new.items ≡ text.old.items ++ text_of (slug_shapes plan.now.widths.now.measure below.top below.number slug.now)) }
{
    let words = kind_words(plan.alloc, below.number, slug)?;
    let at = Point {
        x: NUMBER_RIGHT,
        y: below.top + KIND_FOOT,
    };
    add_words(text, Style::Kind, at, &words)?;
    add_pieces(text, bed_of(plan, below), slug)
}

/// Adds the words of a fault, at the right end of what is drawn of its line.
fn add_fault_behind(
    text: &mut Vec<u8>,
    plan: &DrawingPlan<'_>,
    below: Below,
    fault: SetFault,
) -> Result<(), AllocError>
    ensures { OnOk result (text.new.items ≡ text.old.items ++ shape_text (Words Style.Behind behind_right (below.top + behind_foot) (fault_words fault))) }
{
    let words = fault_words(plan.alloc, fault)?;
    let at = Point {
        x: BEHIND_RIGHT,
        y: below.top + BEHIND_FOOT,
    };
    add_words(text, Style::Behind, at, &words)
}

/// Adds the words of a fault of a line of which nothing is drawn.
fn add_fault(
    text: &mut Vec<u8>,
    plan: &DrawingPlan<'_>,
    below: Below,
    fault: SetFault,
) -> Result<(), AllocError>
    ensures { OnOk result (text.new.items ≡ text.old.items ++ shape_text (Words Style.Fault margin (below.top + note_foot) (fault_words fault))) }
{
    let words = fault_words(plan.alloc, fault)?;
    let at = Point {
        x: MARGIN,
        y: below.top + NOTE_FOOT,
    };
    add_words(text, Style::Fault, at, &words)
}

/// Adds that there is nothing to cast.
fn add_nothing(text: &mut Vec<u8>, below: Below) -> Result<(), AllocError>
    ensures { OnOk result (text.new.items ≡ text.old.items ++ shape_text (Words Style.Note margin (below.top + note_foot) (codes "nothing to cast"))) }
{
    let at = Point {
        x: MARGIN,
        y: below.top + NOTE_FOOT,
    };
    add_words(text, Style::Note, at, b"nothing to cast")
}

/// Adds the items of a line with this fault, the gap behind them, and the fault.
#[tactic(auto, using(crate::proofs::Sequences::text_append))]
fn add_unset_pieces(
    text: &mut Vec<u8>,
    plan: &DrawingPlan<'_>,
    below: Below,
    unset: &UnsetLine<'_>,
) -> Result<(), AllocError>
    ensures { OnOk result (text.new.items ≡ text.old.items ++ text_of (unset_pieces plan.now.widths.now below.top unset.now.fault unset.now.items.now)) }
{
    let band = band_in(plan.widths, unset.fault.cause);
    add_filled(text, bed_of(plan, below), band, unset.items)?;
    add_fault_behind(text, plan, below, unset.fault)
}

/// Adds what is drawn of a line with these items that has this fault.
fn add_unset(
    text: &mut Vec<u8>,
    plan: &DrawingPlan<'_>,
    below: Below,
    unset: &UnsetLine<'_>,
) -> Result<(), AllocError>
    ensures { OnOk result (text.new.items ≡ text.old.items ++ text_of (unset_shapes plan.now.widths.now below.top unset.now.fault unset.now.items.now)) }
{
    let at = Point {
        x: MARGIN,
        y: below.top,
    };
    add_bar(text, at)?;
    add_unset_pieces(text, plan, below, unset)
}

/// Adds what stands below the frames of a line.
#[tactic(auto, using(crate::proofs::Sequences::text_one))]
fn add_foot(
    text: &mut Vec<u8>,
    plan: &DrawingPlan<'_>,
    below: Below,
    fit: &LineFit,
) -> Result<(), AllocError>
    requires { IsFilled plan.now.widths.now.measure fit.now.verdict }
    ensures { OnOk result (text.new.items ≡ text.old.items ++ text_of (foot_shapes plan.now.widths.now below.number below.top fit.now.verdict fit.now.line)) }
{
    match &fit.verdict {
        Verdict::Sets(slug) => add_slug(text, plan, below, slug),
        Verdict::Nothing => add_nothing(text, below),
        Verdict::Faulty(fault) => match &fit.line {
            Some(line) => {
                let unset = UnsetLine {
                    fault: *fault,
                    items: line.items.as_slice(),
                };
                add_unset(text, plan, below, &unset)
            }
            None => add_fault(text, plan, below, *fault),
        },
    }
}

/// The fault of a verdict, where it has one.
pub(crate) fn fault_in(verdict: &Verdict) -> Option<SetFault>
    ensures { result ≡ fault_in verdict.now }
{
    match verdict {
        Verdict::Faulty(fault) => Some(*fault),
        _ => None,
    }
}

/// How the number of a line looks.
fn number_style(fault: Option<SetFault>, faults: u64) -> Style
    ensures { result ≡ number_style fault faults }
{
    match fault {
        Some(_) => {
            if faults == 0 {
                Style::FirstFaulty
            } else {
                Style::Faulty
            }
        }
        None => Style::Line,
    }
}

/// Adds the mark of the fault of a line, if it has one.
fn add_mark_of(text: &mut Vec<u8>, line: LineStart) -> Result<(), AllocError>
    ensures { OnOk result (text.new.items ≡ text.old.items ++ text_of (mark_shapes line.spot.from line.spot.top line.fault)) }
{
    let Some(fault) = line.fault else {
        return Ok(());
    };
    let spot = line.spot;
    let at = corner(spot.top, u64::from(fault.at).saturating_sub(spot.from));
    add_mark(
        text,
        Point {
            x: at.x,
            y: at.y - OUTLINE_RISE,
        },
    )
}

/// Adds the number of a line.
fn add_line_number(text: &mut Vec<u8>, line: LineStart) -> Result<(), AllocError>
    ensures { OnOk result (text.new.items ≡ text.old.items ++ shape_text (number_shape line.spot line.fault)) }
{
    let mut digits = Buffer::new();
    let style = number_style(line.fault, line.spot.faults);
    let at = Point {
        x: NUMBER_RIGHT,
        y: line.spot.top + NUMBER_FOOT,
    };
    add_words(text, style, at, digits.format(line.spot.number).as_bytes())
}

/// Adds the number of a line, its frames and the mark of its fault, and answers the case that holds behind it.
#[tactic(auto, using(crate::proofs::Sequences::text_append))]
fn add_taped(text: &mut Vec<u8>, plan: &DrawingPlan<'_>, taped: Taped) -> Result<Case, AllocError>
    requires { IsTaped plan.now taped }
    ensures text { OnOk result (text.new.items ≡ text.old.items ++ text_of (taped_shapes (mean plan.now.table.now) plan.now.tape.now taped.spot taped.frames taped.fault)) }
    ensures case { IfOk result (λ behind. behind ≡ case_at (mean plan.now.table.now) plan.now.tape.now (taped.spot.from + taped.frames)) }
{
    let strip = Strip {
        table: plan.table,
        tape: plan.tape,
        from: taped.spot.from as usize,
        frames: taped.frames as usize,
        top: taped.spot.top,
    };
    let line = LineStart {
        spot: taped.spot,
        fault: taped.fault,
    };
    add_line_number(text, line)?;
    let behind = add_strip(text, taped.case, &strip)?;
    add_mark_of(text, line)?;
    Ok(behind)
}

/// Adds a line: its number, its frames, the mark of its fault, and what stands below them; and answers the case that holds
/// behind it.
#[tactic(auto, using(crate::proofs::Sequences::text_append))]
fn add_line(
    text: &mut Vec<u8>,
    plan: &DrawingPlan<'_>,
    reached: Reached,
    fit: &LineFit,
) -> Result<Case, AllocError>
    requires { IsLineOf plan.now reached fit.now }
    ensures text { OnOk result (text.new.items ≡ text.old.items ++ text_of (line_by plan.now reached.spot fit.now)) }
    ensures case { IfOk result (λ behind. behind ≡ case_at (mean plan.now.table.now) plan.now.tape.now (fit.now.cut_at + 1)) }
{
    let spot = reached.spot;
    let frames = frames_in(spot.from, fit);
    let extent = Extent {
        top: spot.top,
        height: line_height(spot.from, fit),
    };
    let below = Below {
        number: spot.slug,
        top: spot.top + rows_height(frames),
    };
    let taped = Taped {
        spot,
        frames,
        fault: fault_in(&fit.verdict),
        case: reached.case,
    };
    add_open(text, plan.page, spot.number, extent)?;
    let behind = add_taped(text, plan, taped)?;
    add_foot(text, plan, below, fit)?;
    add_close(text, plan.page)?;
    Ok(behind)
}

/// Adds the lines of a tape, each below the one before it, and answers what is reached behind them.
fn add_lines(
    text: &mut Vec<u8>,
    plan: &DrawingPlan<'_>,
    lines: &[LineFit],
) -> Result<Reached, AllocError>
    requires { AreLinesOf plan.now lines.now }
    ensures text { OnOk result (text.new.items ≡ text.old.items ++ text_of (lines_by plan.now lines.now)) }
    ensures spot { IfOk result (λ reached. reached.spot ≡ after first_spot lines.now) }
    ensures within { IfOk result (λ reached. IsWithin (length plan.now.tape.now) reached.spot) }
    ensures case { IfOk result (HoldsHere plan.now) }
{
    let mut reached = Reached {
        spot: first_spot(),
        case: Case::Unshift,
    };
    for fit in lines {
        let case = add_line(text, plan, reached, fit)?;
        reached = Reached {
            spot: next(reached.spot, fit),
            case,
        };
    }
    Ok(reached)
}

/// How high the frames behind the last elevate code are, with room for a mark behind them.
pub(crate) fn rest_height(frames: u64) -> u64
    requires { frames ≤ 2 ^ 30 }
    ensures { result ≡ rest_height frames }
{
    rows_height(frames + 1) + NOTE_HEIGHT
}

/// Adds what is said of the frames behind the last elevate code.
#[tactic(auto, using(crate::proofs::Sequences::text_one))]
fn add_rest_words(
    text: &mut Vec<u8>,
    plan: &DrawingPlan<'_>,
    below: Below,
    fault: Option<SetFault>,
) -> Result<(), AllocError>
    ensures { OnOk result (text.new.items ≡ text.old.items ++ shape_text (rest_words below.top fault)) }
{
    match fault {
        Some(fault) => add_fault(text, plan, below, fault),
        None => add_nothing(text, below),
    }
}

/// Adds the frames behind the last elevate code, where there are any.
#[tactic(auto, using(crate::proofs::Sequences::text_append))]
fn add_rest(
    text: &mut Vec<u8>,
    plan: &DrawingPlan<'_>,
    reached: Reached,
    fault: Option<SetFault>,
) -> Result<(), AllocError>
    requires { IsBehindLines plan.now reached }
    ensures { OnOk result (text.new.items ≡ text.old.items ++ text_of (rest_shapes plan.now.page (mean plan.now.table.now) plan.now.tape.now reached.spot fault)) }
{
    let spot = reached.spot;
    let end = plan.tape.len() as u64;
    if spot.from >= end {
        return Ok(());
    }
    let frames = end - spot.from;
    let extent = Extent {
        top: spot.top,
        height: rest_height(frames),
    };
    let below = Below {
        number: spot.slug,
        top: spot.top + rows_height(frames + 1),
    };
    let taped = Taped {
        spot,
        frames,
        fault,
        case: reached.case,
    };
    add_open(text, plan.page, spot.number, extent)?;
    add_taped(text, plan, taped)?;
    add_rest_words(text, plan, below, fault)?;
    add_close(text, plan.page)
}

/// Adds all that is drawn of a tape: its lines, and what stands behind the last.
#[tactic(auto, using(crate::proofs::Sequences::text_append))]
pub(crate) fn add_tape(
    text: &mut Vec<u8>,
    plan: &DrawingPlan<'_>,
    fitting: &Fitting,
) -> Result<(), AllocError>
    requires { AreLinesOf plan.now fitting.now.lines.items }
    ensures { OnOk result (text.new.items ≡ text.old.items ++ text_of (tape_by plan.now fitting.now)) }
{
    let reached = add_lines(text, plan, &fitting.lines)?;
    add_rest(text, plan, reached, fitting.rest)
}
