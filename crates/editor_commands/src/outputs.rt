//! Output that is written in one piece, and handed on.

ghost use Rattle.std.specs.Prelude.{OnOk, IfErr};
ghost use Rattle.std.specs.Io.KnownBytes.{Appends};
ghost use Rattle.editor_commands.specs.Ends.{end_in, BreaksOffText};

use crate::cause::EditorFault;
use std::io::Write;

/// Writes bytes, and hands them on.
pub(crate) fn put_whole<'a, W: Write>(bytes: &[u8], out: &mut W) -> Result<(), EditorFault<'a>>
    ensures ok { OnOk result (Appends (W.contents out.old) (W.contents out.new) bytes.now) }
    ensures err { IfErr result (λ e. BreaksOffText bytes.now (end_in e) (W.contents out.old) (W.contents out.new)) }
{
    streams::put_whole(out, bytes)?;
    Ok(())
}
