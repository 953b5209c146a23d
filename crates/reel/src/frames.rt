//! The frames of a reel.

ghost use Rattle.std.specs.Prelude.{◌≡◌, IfOk, map};
ghost use Rattle.reel.specs.Levels.{frame_of};

use crate::levels::Levels;
use std::alloc::{AllocError, Global};

/// The frames that the levels read of the bytes of a reel, one a byte.
pub fn frames_of(alloc: Global, levels: &Levels, bytes: &[u8]) -> Result<Vec<u8>, AllocError>
    ensures { IfOk result (λ v. v.items ≡ map (frame_of levels.now) bytes.now) }
{
    bytes.iter().map(|byte| levels.frame(*byte)).collect(alloc)
}
