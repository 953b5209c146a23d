//! The text of a release.

ghost use Rattle.std.specs.Prelude.{◌≡◌, ◌++◌, IfOk, string_bytes};
ghost use Rattle.line_check.specs.Galley.{galley_of};
ghost use Rattle.release_texts.specs.ReleaseText.{plain_line, faulty_line, tape_release, printed_text, lent};
ghost use Rattle.streams.specs.Writing.{Writes};

use crate::entry_texts::entry_text;
use line_check::{SetFault, Slug, galley};
use refusals::CauseText;
use std::alloc::{AllocError, Global};
use std::io::Write;
use streams::{PutFault, put_all};
use tape_frames::EntryRef;

/// A release as it is printed.
#[derive(Drop)]
pub struct PrintedRelease<'a> {
    /// What stands before its line.
    pub lead: &'a str,
    pub number: u32,
    pub entry: EntryRef<'a>,
    /// What setting its tape gave.
    pub set: Result<&'a [Slug], SetFault>,
}

/// Its number and the text of its entry, as a line behind its lead.
fn plain_line(alloc: Global, release: &PrintedRelease<'_>, text: &str) -> Result<String, AllocError>
    ensures { IfOk result (λ t. string_bytes t ≡ plain_line release.now.lead.now release.now.number text.now) }
{
    let (lead, number) = (release.lead, release.number);
    format!(in alloc; "{lead}release {number} {text}\n")
}

/// The same of a tape that does not set, with the cause.
fn faulty_line(
    alloc: Global,
    release: &PrintedRelease<'_>,
    text: &str,
    fault: SetFault,
) -> Result<String, AllocError>
    ensures { IfOk result (λ t. string_bytes t ≡ faulty_line release.now.lead.now release.now.number text.now fault) }
{
    let (lead, number) = (release.lead, release.number);
    let cause = CauseText(fault);
    format!(in alloc; "{lead}release {number} {text} faulty {cause}\n")
}

/// Writes a line.
pub fn put_line<W: Write>(line: &str, out: &mut W) -> Result<(), PutFault>
    ensures { Writes result (W.contents out.old) (W.contents out.new) line.now }
{
    put_all(out, line.as_bytes())?;
    Ok(())
}

fn put_galley<W: Write>(slugs: &[Slug], out: &mut W) -> Result<(), PutFault>
    ensures { Writes result (W.contents out.old) (W.contents out.new) (galley_of slugs.now) }
{
    galley(slugs, out)?;
    Ok(())
}

/// Writes a line, and then the galley of slugs.
pub fn put_set<W: Write>(line: &str, slugs: &[Slug], out: &mut W) -> Result<(), PutFault>
    ensures { Writes result (W.contents out.old) (W.contents out.new) (line.now ++ galley_of slugs.now) }
{
    put_line(line, out)?;
    put_galley(slugs, out)
}

/// Writes the release of a tape, whose frames are this text: its line, and the galley of its slugs. Where it does not
/// set, the line has the cause, and there is no galley.
fn put_tape<W: Write>(
    alloc: Global,
    release: &PrintedRelease<'_>,
    text: &str,
    out: &mut W,
) -> Result<(), PutFault>
    ensures { Writes result (W.contents out.old) (W.contents out.new)
        (tape_release release.now.lead.now release.now.number text.now (lent release.now.set)) }
{
    match release.set {
        Ok(slugs) => {
            let line = plain_line(alloc, release, text)?;
            put_set(&line, slugs, out)
        }
        Err(fault) => {
            let line = faulty_line(alloc, release, text, fault)?;
            put_line(&line, out)
        }
    }
}

/// Writes the release of a withdrawal, whose text this is: its line alone.
fn put_withdrawal<W: Write>(
    alloc: Global,
    release: &PrintedRelease<'_>,
    text: &str,
    out: &mut W,
) -> Result<(), PutFault>
    ensures { Writes result (W.contents out.old) (W.contents out.new) (plain_line release.now.lead.now release.now.number text.now) }
{
    let line = plain_line(alloc, release, text)?;
    put_line(&line, out)
}

/// Writes a release behind a lead: a line with its number and its frames in hex, and the galley of its slugs.
/// Where its tape does not set, the line has the cause, and there is no galley. The line of a withdrawal has `void` for
/// the frames, and stands alone.
pub fn put_release<W: Write>(
    alloc: Global,
    release: &PrintedRelease<'_>,
    out: &mut W,
) -> Result<(), PutFault>
    ensures { Writes result (W.contents out.old) (W.contents out.new) (printed_text release.now) }
{
    let text = entry_text(alloc, &release.entry)?;
    match release.entry {
        EntryRef::Void => put_withdrawal(alloc, release, &text, out),
        EntryRef::Plain(_) => put_tape(alloc, release, &text, out),
        EntryRef::Packed(_) => put_tape(alloc, release, &text, out),
    }
}
