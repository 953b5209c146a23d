//! The tapes that a roll becomes.

ghost use Rattle.std.specs.Prelude.{◌≡◌, IfOk};
ghost use Rattle.reel.specs.Tapes.{AreTapes, frames_in};

use crate::cutting::cut;
use crate::piece::RollPiece;
use crate::trimming::trim_all;
use std::alloc::{AllocError, Global};

/// How a roll becomes tapes.
#[derive(Clone, Copy)]
pub struct Cutting {
    /// How many blanks make a gap, at which it is cut; with 0 it is not.
    pub least: usize,
    /// Whether each piece is taken without its leader and its trailer.
    pub trims: bool,
}

/// The tapes of a roll, in order: it is cut at its gaps, and then each piece is trimmed where that is asked for.
pub fn tapes_of(
    alloc: Global,
    frames: &[u8],
    cutting: Cutting,
) -> Result<Vec<RollPiece>, AllocError>
    ensures { IfOk result (λ tapes. AreTapes cutting.least cutting.trims frames.now tapes.items) }
{
    let pieces = cut(alloc, frames, cutting.least)?;
    if cutting.trims {
        trim_all(alloc, frames, &pieces)
    } else {
        Ok(pieces)
    }
}

/// The frames of a piece.
pub fn frames_in(frames: &[u8], piece: RollPiece) -> &[u8]
    ensures { result.now ≡ frames_in frames.now piece }
{
    let (_, rest) = frames.split_at(piece.from.min(frames.len()));
    let (piece, _) = rest.split_at(piece.to.saturating_sub(piece.from).min(rest.len()));
    piece
}
