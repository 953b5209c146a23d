//! The frames of a line: rows of them, each with its holes and what it means.

ghost use Rattle.std.specs.Prelude.{◌≡◌, ◌++◌, ◌+◌, ◌≤◌, ◌<◌, ◌^◌, OnOk, IfOk, length, codes, option_copied};
ghost use Rattle.tape_frames.specs.Frames.{most_frames};
ghost use Rattle.code_table.specs.Tables.{mean};
ghost use Rattle.slug_reader.specs.Meanings.{case_at};
ghost use Rattle.tape_drawing.specs.Lengths.{position_rise};
ghost use Rattle.tape_drawing.specs.Shapes.{text_of, shape_text, title_end, title_text, dot_text, dots_text, holes_text, mark_text, frame_text, Frame};
ghost use Rattle.tape_drawing.specs.Frames.{paper_shapes, position_shapes, above_shapes, IsStrip, HoldsAtKth, alone_in, kth_in, strip_in};

use crate::elements::{Point, Room, Style, add_count, add_fitted, add_pair, add_paper, add_words};
use crate::escaping::add_escaped;
use crate::layout::corner;
use crate::lengths::{
    FRAME_MIDDLE, LEVEL_STEP, LOWER_TOP, MARK_FOOT, MARK_WIDTH, POSITION_RISE, ROW_FRAMES,
    UPPER_TOP,
};
use crate::meanings::{mark_style, mark_word, meaning_word, next_case};
use code_table::{Case, CodeTable, Meaning};
use itoa::Buffer;
use std::alloc::AllocError;
use tape_frames::holes;

/// The frames of a line, as they stand on its tape.
#[derive(Clone, Copy)]
pub(crate) struct Strip<'a> {
    /// What says what they mean.
    pub table: &'a CodeTable,
    /// The frames of the whole tape.
    pub tape: &'a [u8],
    /// The position of the first.
    pub from: usize,
    /// How many they are.
    pub frames: usize,
    /// The upper edge of the line.
    pub top: u64,
}

/// A frame at its position, and where it is drawn.
#[derive(Clone, Copy)]
struct Punched {
    position: u64,
    frame: u8,
    at: Point,
    ghost known: { frame < 64 },
    ghost near: { at.y ≤ 2 ^ 58 },
}

/// Adds what a frame means in full, and ends its title.
#[tactic(auto, unfolding(crate::specs::Shapes::title_end))]
fn add_title_end(text: &mut Vec<u8>, word: &[u8]) -> Result<(), AllocError>
    ensures { OnOk result (text.new.items ≡ text.old.items ++ title_end word.now) }
{
    add_escaped(text, word)?;
    text.extend_from_slice(b"</title><path d='")
}

/// Adds the position of a frame and what it means in full, as far as its holes.
#[tactic(auto, unfolding(crate::specs::Shapes::title_text))]
fn add_title(text: &mut Vec<u8>, at: u64, word: &[u8]) -> Result<(), AllocError>
    ensures { OnOk result (text.new.items ≡ text.old.items ++ title_text at word.now) }
{
    add_count(text, "<g><title>", at)?;
    text.extend_from_slice(b" ")?;
    add_title_end(text, word)
}

/// Adds a hole where there is one.
fn add_dot(text: &mut Vec<u8>, punched: u8, x: u64, y: u64) -> Result<(), AllocError>
    ensures { OnOk result (text.new.items ≡ text.old.items ++ dot_text punched x y) }
{
    if punched == b'o' {
        add_pair(text, "M", " ", (x, y))?;
        text.extend_from_slice(b"h0")
    } else {
        Ok(())
    }
}

/// Adds the holes of three levels that lie one below the other.
fn add_dots(text: &mut Vec<u8>, levels: (u8, u8, u8), at: Point) -> Result<(), AllocError>
    requires { at.y ≤ 2 ^ 60 }
    ensures { OnOk result (text.new.items ≡ text.old.items ++ dots_text levels.0 levels.1 levels.2 at.x at.y) }
{
    add_dot(text, levels.0, at.x, at.y)?;
    add_dot(text, levels.1, at.x, at.y + LEVEL_STEP)?;
    add_dot(text, levels.2, at.x, at.y + 2 * LEVEL_STEP)
}

/// Adds the holes of a frame, level 0 on top.
#[tactic(auto, unfolding(crate::specs::Shapes::holes_text))]
pub fn add_holes(text: &mut Vec<u8>, frame: u8, at: Point) -> Result<(), AllocError>
    requires { (frame < 64) × (at.y ≤ 2 ^ 59) }
    ensures { OnOk result (text.new.items ≡ text.old.items ++ holes_text frame at.x at.y) }
{
    let Some(levels) = holes(frame) else {
        unreachable!()
    };
    let upper = Point {
        x: at.x,
        y: at.y + UPPER_TOP,
    };
    let lower = Point {
        x: at.x,
        y: at.y + LOWER_TOP,
    };
    add_dots(text, (levels[0], levels[1], levels[2]), upper)?;
    add_dots(text, (levels[3], levels[4], levels[5]), lower)
}

/// Adds the mark below a frame, fitted to its column where it is long.
#[tactic(auto, unfolding(crate::specs::Shapes::shape_text))]
fn add_mark_word(text: &mut Vec<u8>, style: Style, at: Point, word: &[u8]) -> Result<(), AllocError>
    ensures { OnOk result (text.new.items ≡ text.old.items ++ mark_text style at.x at.y word.now) }
{
    if word.len() >= 4 {
        let room = Room {
            at,
            length: MARK_WIDTH,
        };
        add_fitted(text, style, room, word)
    } else {
        add_words(text, style, at, word)
    }
}

/// Adds the title of a frame and its holes.
fn add_punched(text: &mut Vec<u8>, punched: Punched, word: &[u8]) -> Result<(), AllocError>
    ensures { OnOk result (text.new.items ≡ text.old.items
        ++ (title_text punched.position word.now ++ (holes_text punched.frame punched.at.x punched.at.y ++ codes "'/>"))) }
{
    add_title(text, punched.position, word)?;
    add_holes(text, punched.frame, punched.at)?;
    text.extend_from_slice(b"'/>")
}

/// Adds a frame: its title, its holes, and below them its mark.
#[tactic(auto, unfolding(crate::specs::Shapes::shape_text))]
fn add_frame(
    text: &mut Vec<u8>,
    punched: Punched,
    meaning: Option<&Meaning>,
) -> Result<(), AllocError>
    ensures { OnOk result (text.new.items ≡ text.old.items
        ++ shape_text (Frame punched.at.x punched.at.y punched.position punched.frame (option_copied meaning.entry))) }
{
    add_punched(text, punched, meaning_word(meaning))?;
    let below = Point {
        x: punched.at.x,
        y: punched.at.y + MARK_FOOT,
    };
    add_mark_word(text, mark_style(meaning), below, mark_word(meaning))?;
    text.extend_from_slice(b"</g>\n")
}

/// Adds the paper of a row at its first frame: the k-th of a line of so many.
fn add_row(text: &mut Vec<u8>, k: usize, frames: usize, at: Point) -> Result<(), AllocError>
    requires { (k < frames) × (at.x ≤ 2 ^ 40) × (at.y ≤ 2 ^ 41) }
    ensures { OnOk result (text.new.items ≡ text.old.items ++ text_of (paper_shapes k frames at)) }
{
    if k % ROW_FRAMES as usize != 0 {
        return Ok(());
    }
    add_paper(text, at, ((frames - k) as u64).min(ROW_FRAMES))
}

/// Adds the position of every tenth frame.
fn add_position(text: &mut Vec<u8>, position: usize, at: Point) -> Result<(), AllocError>
    requires { (at.x ≤ 2 ^ 59) × (position_rise ≤ at.y) }
    ensures { OnOk result (text.new.items ≡ text.old.items ++ text_of (position_shapes position at)) }
{
    if position % 10 != 0 {
        return Ok(());
    }
    let mut digits = Buffer::new();
    let place = Point {
        x: at.x + FRAME_MIDDLE,
        y: at.y - POSITION_RISE,
    };
    add_words(
        text,
        Style::Position,
        place,
        digits.format(position).as_bytes(),
    )
}

/// Adds what stands above the k-th frame of a line: the paper of its row, and its position.
#[tactic(auto, using(crate::proofs::Sequences::text_append))]
fn add_above(text: &mut Vec<u8>, strip: &Strip<'_>, k: usize) -> Result<(), AllocError>
    requires within { (k < strip.now.frames) × (strip.now.from + strip.now.frames ≤ most_frames) }
    requires top { strip.now.top ≤ 2 ^ 40 }
    ensures { OnOk result (text.new.items ≡ text.old.items ++ text_of (above_shapes strip.now.from strip.now.frames strip.now.top k)) }
{
    let at = corner(strip.top, k as u64);
    add_row(text, k, strip.frames, at)?;
    add_position(text, strip.from + k, at)
}

/// Adds the k-th frame of a line, where this case holds, alone.
fn add_frame_alone(
    text: &mut Vec<u8>,
    case: Case,
    strip: &Strip<'_>,
    k: usize,
) -> Result<(), AllocError>
    requires { HoldsAtKth strip.now k case }
    ensures { OnOk result (text.new.items ≡ text.old.items ++ shape_text (alone_in strip.now k)) }
{
    let position = strip.from + k;
    let at = corner(strip.top, k as u64);
    let punched = Punched {
        position: position as u64,
        frame: strip.tape[position],
        at: Point {
            x: at.x + FRAME_MIDDLE,
            y: at.y,
        },
    };
    let meaning = strip.table.meaning(case, punched.frame);
    add_frame(text, punched, meaning)
}

/// Adds the k-th frame of a line, where this case holds.
#[tactic(auto, using(crate::proofs::Sequences::text_append, crate::proofs::Sequences::text_one))]
fn add_kth(text: &mut Vec<u8>, case: Case, strip: &Strip<'_>, k: usize) -> Result<(), AllocError>
    requires { HoldsAtKth strip.now k case }
    ensures { OnOk result (text.new.items ≡ text.old.items ++ text_of (kth_in strip.now k)) }
{
    add_above(text, strip, k)?;
    add_frame_alone(text, case, strip, k)
}

/// Adds the frames of a line, from left to right in rows, each with what it means in the case that holds there; and answers
/// the case that holds behind them.
pub(crate) fn add_strip(
    text: &mut Vec<u8>,
    case: Case,
    strip: &Strip<'_>,
) -> Result<Case, AllocError>
    requires strip { IsStrip strip.now }
    requires case { case ≡ case_at (mean strip.now.table.now) strip.now.tape.now strip.now.from }
    ensures text { OnOk result (text.new.items ≡ text.old.items ++ text_of (strip_in strip.now)) }
    ensures case { IfOk result (λ behind. behind ≡ case_at (mean strip.now.table.now) strip.now.tape.now (strip.now.from + strip.now.frames)) }
{
    let mut case = case;
    for k in 0..strip.frames {
        add_kth(text, case, strip, k)?;
        case = next_case(strip.table, case, strip.tape[strip.from + k]);
    }
    Ok(case)
}
