//! Where a roll is cut into pieces.

ghost use Rattle.std.specs.Prelude.{◌≤◌, length, IfOk};
ghost use Rattle.reel.specs.Pieces.{AreBlanks, IsNextGap, IsCut};

use crate::piece::RollPiece;
use std::alloc::{AllocError, Global};

/// The first place from one on at which no blank stands, or the end of the frames.
fn blanks_end(frames: &[u8], from: usize) -> usize
    requires { from ≤ length frames.now }
    ensures { AreBlanks frames.now from result }
{
    let mut at = from;
    while at < frames.len() && frames[at] == 0 {
        at += 1;
    }
    at
}

/// The first place from one on at which a gap begins, or the end of the frames.
fn next_gap(frames: &[u8], least: usize, from: usize) -> usize
    requires { (1 ≤ least) × (from ≤ length frames.now) }
    ensures { IsNextGap least frames.now from result }
{
    let mut at = from;
    while at < frames.len() {
        let end = blanks_end(frames, at);
        if end - at >= least {
            return at;
        }
        at = if end < frames.len() { end + 1 } else { end };
    }
    at
}

/// The pieces of a roll that is cut at each gap.
fn cut_at_gaps(alloc: Global, frames: &[u8], least: usize) -> Result<Vec<RollPiece>, AllocError>
    requires { 1 ≤ least }
    ensures { IfOk result (λ pieces. IsCut least frames.now pieces.items) }
{
    let mut pieces = Vec::new(alloc);
    let mut from = 0;
    while from < frames.len() {
        let to = next_gap(frames, least, from);
        if from < to {
            pieces.push(RollPiece { from, to })?;
        }
        from = blanks_end(frames, to);
    }
    Ok(pieces)
}

/// A roll that is not cut.
fn whole(alloc: Global, frames: &[u8]) -> Result<Vec<RollPiece>, AllocError>
    ensures { IfOk result (λ pieces. IsCut 0 frames.now pieces.items) }
{
    let mut pieces = Vec::new(alloc);
    if !frames.is_empty() {
        pieces.push(RollPiece {
            from: 0,
            to: frames.len(),
        })?;
    }
    Ok(pieces)
}

/// The pieces of a roll that is cut where so many blanks or more stand one behind the other. All that is in no such gap is in a piece.
/// With 0 there is no gap, and one piece.
pub(crate) fn cut(alloc: Global, frames: &[u8], least: usize) -> Result<Vec<RollPiece>, AllocError>
    ensures { IfOk result (λ pieces. IsCut least frames.now pieces.items) }
{
    if least == 0 {
        whole(alloc, frames)
    } else {
        cut_at_gaps(alloc, frames, least)
    }
}
