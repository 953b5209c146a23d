//! Pieces without their leaders and trailers.

ghost use Rattle.std.specs.Prelude.{◌≡◌, ◌<◌, ◌≤◌, ◌-◌, ℕ, true, false, slice_index, IfOk, MatchOption};
ghost use Rattle.reel.specs.Trimming.{is_leader, AllLeader, IsTrimmed, Trims};

use crate::piece::RollPiece;
use std::alloc::{AllocError, Global};

/// Whether a frame is one of a leader: a blank, or a rub-out.
fn is_leader(frame: u8) -> bool
    ensures { result ≡ is_leader frame }
{
    frame == 0 || frame == 63
}

/// The same of the frame at a place; behind the end all are blank.
fn is_leader_at(frames: &[u8], at: usize) -> bool
    ensures { result ≡ is_leader (slice_index frames.now at) }
{
    match frames.get(at) {
        Some(frame) => is_leader(*frame),
        None => true,
    }
}

/// The first place of a piece at which no leader stands, or its end.
fn leader_end(frames: &[u8], piece: RollPiece) -> usize
    requires { piece.from ≤ piece.to }
    ensures within { (piece.from ≤ result) × (result ≤ piece.to) }
    ensures leader { AllLeader frames.now piece.from result }
    ensures filled { result < piece.to → is_leader (slice_index frames.now result) ≡ false }
{
    let mut at = piece.from;
    while at < piece.to && is_leader_at(frames, at) {
        at += 1;
    }
    at
}

/// The place behind the last of a piece at which no trailer stands, where none stands at its first.
fn trailer_start(frames: &[u8], piece: RollPiece) -> usize
    requires some { piece.from < piece.to }
    requires filled { is_leader (slice_index frames.now piece.from) ≡ false }
    ensures within { (piece.from < result) × (result ≤ piece.to) }
    ensures trailer { AllLeader frames.now result piece.to }
    ensures last { is_leader (slice_index frames.now (result - 1)) ≡ false }
{
    let mut at = piece.to;
    while is_leader_at(frames, at - 1) {
        at -= 1;
    }
    at
}

/// A piece without its leader and its trailer, where something is left of it.
fn trim(frames: &[u8], piece: RollPiece) -> Option<RollPiece>
    ensures { MatchOption result (AllLeader frames.now piece.from piece.to) (λ left. IsTrimmed frames.now piece left) }
{
    if piece.from >= piece.to {
        return None;
    }
    let from = leader_end(frames, piece);
    if from == piece.to {
        return None;
    }
    let to = piece.to;
    let to = trailer_start(frames, RollPiece { from, to });
    Some(RollPiece { from, to })
}

/// Pieces without their leaders and trailers; those of which nothing is left are left out.
pub(crate) fn trim_all(
    alloc: Global,
    frames: &[u8],
    pieces: &[RollPiece],
) -> Result<Vec<RollPiece>, AllocError>
    ensures { IfOk result (λ trimmed. Trims frames.now pieces.now trimmed.items) }
{
    let mut trimmed = Vec::new(alloc);
    for piece in pieces {
        match trim(frames, *piece) {
            Some(left) => {
                trimmed.push(left)?;
            }
            None => {}
        }
    }
    Ok(trimmed)
}
