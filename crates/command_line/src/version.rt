//! Which version of the program this is.

ghost use Rattle.std.specs.Prelude.{◌≡◌, OnOk, OnErr, IfErr};
ghost use Rattle.std.specs.Io.KnownBytes.{Appends};
ghost use Rattle.streams.specs.Fronts.{AppendsFront};
ghost use Rattle.command_line.specs.Version.{named_text, version_text, PrintsVersion};

use arguments::VERSION;
use command_ends::{End, Fault, end_with};
use std::io::Write;
use streams::{CannotWrite, hand_on, put_parts};

/// Writes the program's name and a version, on a line.
fn put_line<W: Write>(out: &mut W, version: &str) -> Result<(), CannotWrite>
    ensures ok { OnOk result (Appends (W.contents out.old) (W.contents out.new) (named_text version.now)) }
    ensures err { OnErr result (AppendsFront (W.contents out.old) (W.contents out.new) (named_text version.now)) }
{
    put_parts(out, &[b"circuitd ", version.as_bytes(), b"\n"])
}

/// Writes the version, and hands it on.
fn put_version<'a, W: Write>(out: &mut W) -> Result<(), Fault<'a>>
    ensures ok { OnOk result (Appends (W.contents out.old) (W.contents out.new) version_text) }
    ensures err { OnErr result (AppendsFront (W.contents out.old) (W.contents out.new) version_text) }
    ensures fault { IfErr result (λ fault. fault ≡ Fault.CannotWrite) }
{
    put_line(out, VERSION)?;
    hand_on(out)?;
    Ok(())
}

/// Prints the program's name and its version. Where the output can't be written, `err` has that fault.
#[tactic(auto, using(streams::proofs::Fronts::front_of_all))]
pub fn print_version<W: Write, E: Write>(out: &mut W, err: &mut E) -> End
    ensures { PrintsVersion (W.contents out.old) (W.contents out.new) result }
{
    end_with(put_version(out), err)
}
