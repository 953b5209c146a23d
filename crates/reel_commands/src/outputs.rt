//! Output that is written in one piece, and handed on.

ghost use Rattle.std.specs.Io.KnownBytes.{Appends};
ghost use Rattle.reel_commands.specs.Ends.{Gives};

use crate::cause::ReelFault;
use std::io::Write;

/// Writes bytes, and hands them on.
pub(crate) fn put_whole<'a, W: Write>(bytes: &[u8], out: &mut W) -> Result<(), ReelFault<'a>>
    ensures { Gives result (λ _. Appends (W.contents out.old) (W.contents out.new) bytes.now) }
{
    streams::put_whole(out, bytes)?;
    Ok(())
}
