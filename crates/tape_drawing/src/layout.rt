//! The layout: where what stands.

ghost use Rattle.std.specs.Prelude.{◌≡◌, ◌≤◌, ◌<◌, ◌+◌, ◌*◌, ◌^◌, length};
ghost use Rattle.tape_frames.specs.Frames.{most_frames};
ghost use Rattle.tape_drawing.specs.Layout.{corner, rows_height, edge, across, type_size, height_below, slugs_in, faults_in, frames_in, line_height, next, after, first_spot, IsWithin, AreLines};

use crate::elements::Point;
use crate::lengths::{
    CAST_HEIGHT, FRAME_WIDTH, GREATEST_TYPE, HEAD_HEIGHT, LEAST_TYPE, MARGIN, MEASURE_WIDTH,
    NOTE_HEIGHT, PAPER_TOP, ROW_FRAMES, ROW_HEIGHT,
};
use line_fit::{LineFit, Verdict};
use slug_reader::Line;
use widths::Widths;

/// Where a line begins.
#[derive(Clone, Copy)]
pub(crate) struct Spot {
    /// Its number, from 1: that of the text.
    pub number: u64,
    /// The number that its slug has, where it has one: that of the galley.
    pub slug: u64,
    /// How many lines before it do not set.
    pub faults: u64,
    /// The position of its first frame.
    pub from: u64,
    /// Its upper edge.
    pub top: u64,
}

/// A stretch of a line to the scale of a measure, and the upper edge of what is cast of the line. Widths are in units.
#[derive(Clone, Copy)]
pub(crate) struct Stretch {
    pub measure: u64,
    pub top: u64,
    pub from: u64,
    pub width: u64,
}

/// The upper left corner of the paper of the k-th frame of a line whose upper edge is here.
pub(crate) fn corner(top: u64, k: u64) -> Point
    requires { (top ≤ 2 ^ 40) × (k ≤ 2 ^ 32) }
    ensures value { result ≡ corner top k }
    ensures small { (result.x ≤ 1000) × (12 ≤ result.y) × (result.y ≤ 2 ^ 41) }
{
    Point {
        x: MARGIN + FRAME_WIDTH * (k % ROW_FRAMES),
        y: top + ROW_HEIGHT * (k / ROW_FRAMES) + PAPER_TOP,
    }
}

/// How high the rows of so many frames are.
pub(crate) fn rows_height(frames: u64) -> u64
    requires { frames ≤ 2 ^ 40 }
    ensures { result ≡ rows_height frames }
{
    ROW_HEIGHT * ((frames + (ROW_FRAMES - 1)) / ROW_FRAMES)
}

/// The edge that lies so many units from the left of a slug, in user units.
pub(crate) fn edge(measure: u64, units: u64) -> u64
    requires { (1 ≤ measure) × (units ≤ 2 ^ 40) }
    ensures { result ≡ edge measure units }
{
    MARGIN + units * MEASURE_WIDTH / measure
}

/// How far the right edge of a stretch lies from its left edge.
pub(crate) fn across(stretch: Stretch) -> u64
    requires { (1 ≤ stretch.measure) × (stretch.from ≤ 2 ^ 39) × (stretch.width ≤ 2 ^ 39) }
    ensures { result ≡ across stretch }
{
    edge(stretch.measure, stretch.from + stretch.width) - edge(stretch.measure, stretch.from)
}

/// The size of the type: its em is that of the widths, but no higher than a slug.
pub(crate) fn type_size(widths: &Widths) -> u64
    ensures { result ≡ type_size widths.now }
{
    (u64::from(widths.em()) * MEASURE_WIDTH / u64::from(widths.measure()))
        .min(GREATEST_TYPE)
        .max(LEAST_TYPE)
}

/// How high what stands below the frames of a line is.
fn height_below(verdict: &Verdict, line: &Option<Line>) -> u64
    ensures value { result ≡ height_below verdict.now line.now }
    ensures small { result ≤ 64 }
{
    match verdict {
        Verdict::Sets(_) => CAST_HEIGHT,
        Verdict::Nothing => NOTE_HEIGHT,
        Verdict::Faulty(_) => match line {
            Some(_) => CAST_HEIGHT,
            None => NOTE_HEIGHT,
        },
    }
}

/// How many slugs a verdict has.
fn slugs_in(verdict: &Verdict) -> u8
    ensures { result ≡ slugs_in verdict.now }
{
    match verdict {
        Verdict::Sets(_) => 1,
        _ => 0,
    }
}

/// How many faults.
fn faults_in(verdict: &Verdict) -> u8
    ensures { result ≡ faults_in verdict.now }
{
    match verdict {
        Verdict::Faulty(_) => 1,
        _ => 0,
    }
}

/// How many frames a line has that begins at a position, with the code that cuts it.
pub(crate) fn frames_in(from: u64, fit: &LineFit) -> u64
    requires { from ≤ fit.now.cut_at }
    ensures value { result ≡ frames_in from fit.now }
    ensures small { result ≤ 2 ^ 32 }
{
    u64::from(fit.cut_at) + 1 - from
}

/// How high a line is.
pub(crate) fn line_height(from: u64, fit: &LineFit) -> u64
    requires { (from ≤ fit.now.cut_at) × (fit.now.cut_at ≤ 2 ^ 39) }
    ensures value { result ≡ line_height from fit.now }
    ensures small { result ≤ 2 ^ 46 }
{
    rows_height(frames_in(from, fit)) + height_below(&fit.verdict, &fit.line)
}

/// Where the line begins that follows another.
pub(crate) fn next(spot: Spot, fit: &LineFit) -> Spot
    requires { (spot.from ≤ fit.now.cut_at) × (spot.top ≤ 2 ^ 40) × (spot.number ≤ 2 ^ 40) × (spot.slug ≤ 2 ^ 40) × (spot.faults ≤ 2 ^ 40) × (fit.now.cut_at ≤ 2 ^ 39) }
    ensures { result ≡ next spot fit.now }
{
    Spot {
        number: spot.number + 1,
        slug: spot.slug + u64::from(slugs_in(&fit.verdict)),
        faults: spot.faults + u64::from(faults_in(&fit.verdict)),
        from: u64::from(fit.cut_at) + 1,
        top: spot.top + line_height(spot.from, fit),
    }
}

/// Where the first line begins, below the head.
pub(crate) fn first_spot() -> Spot
    ensures { result ≡ first_spot }
{
    Spot {
        number: 1,
        slug: 1,
        faults: 0,
        from: 0,
        top: HEAD_HEIGHT,
    }
}

/// Where the line begins that follows these, of a tape with so many frames whose slugs have this measure.
pub(crate) fn after(fits: &[LineFit], measure: u64, end: usize) -> Spot
    requires { (end ≤ most_frames) × AreLines measure end 0 fits.now }
    ensures value { result ≡ after first_spot fits.now }
    ensures within { IsWithin end result }
{
    let mut spot = first_spot();
    for fit in fits {
        spot = next(spot, fit);
    }
    spot
}
