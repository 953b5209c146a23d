//! What a rehearsal shows of a step: a line for what it did, one for each datagram, and the release.

ghost use Rattle.std.specs.Prelude.{◌≡◌, ◌+◌, ◌≤◌, OnOk, codes, flat_map, length, string_bytes};
ghost use Rattle.release_texts.specs.EntryText.{entry_text};
ghost use Rattle.release_texts.specs.ReleaseText.{plain_line};
ghost use Rattle.streams.specs.Writing.{Writes};
ghost use Rattle.tape_frames.specs.Entries.{owned_entry};
ghost use Rattle.rehearse_command.specs.Lines.{outcome_line, released_text};
ghost use Rattle.rehearse_command.specs.Scenes.{shown_text};

use crate::outcomes::OutcomeText;
use crate::{put_datagrams, release_line};
use release_texts::{PrintedRelease, entry_text, put_line, put_release, put_set};
use station::Datagram;
use std::alloc::{AllocError, Global};
use std::io::Write;
use streams::PutFault;
use tape_frames::Entry;
use world::{Outcome, ReleaseLog, Seen};

/// A step that is shown: what was seen of it, how many datagrams were sent before it, and the datagrams and the releases
/// that it added.
#[derive(Clone, Copy)]
pub(crate) struct ShownStep<'a> {
    pub seen: Seen,
    pub before: usize,
    pub sent: &'a [Datagram],
    pub releases: &'a [ReleaseLog],
}

/// Makes `line` the line for what became of a member's step.
fn outcome_line(line: &mut String, member: u8, outcome: Outcome) -> Result<(), AllocError>
    ensures { OnOk result (string_bytes line.new ≡ outcome_line member outcome) }
{
    let text = OutcomeText(outcome);
    line.clear();
    write!(line, "{member} {text}\n")
}

/// Writes what became of a member's step.
fn put_outcome<W: Write>(
    line: &mut String,
    member: u8,
    outcome: Outcome,
    out: &mut W,
) -> Result<(), PutFault>
    ensures { Writes result (W.contents out.old) (W.contents out.new) (outcome_line member outcome) }
{
    outcome_line(line, member, outcome)?;
    put_line(line, out)
}

/// Makes `line` the line of a release whose tape sets.
fn set_line(alloc: Global, line: &mut String, number: u32, entry: &Entry) -> Result<(), AllocError>
    ensures { OnOk result (string_bytes line.new ≡ plain_line (codes " ") number (entry_text (owned_entry entry.now))) }
{
    let text = entry_text(alloc, &entry.lend())?;
    release_line(line, number, &text)
}

/// Writes a release, behind a blank. The line of a tape that sets is made in `line`.
fn put_released<W: Write>(
    alloc: Global,
    line: &mut String,
    release: &ReleaseLog,
    out: &mut W,
) -> Result<(), PutFault>
    ensures { Writes result (W.contents out.old) (W.contents out.new) (released_text release.now) }
{
    let number = release.number();
    let entry = release.entry();
    match (entry, release.set()) {
        (Entry::Tape(_), Ok(slugs)) => {
            set_line(alloc, line, number, entry)?;
            put_set(line, slugs, out)
        }
        (_, set) => {
            let printed = PrintedRelease {
                lead: " ",
                number,
                entry: entry.lend(),
                set,
            };
            put_release(alloc, &printed, out)
        }
    }
}

/// Writes the releases of a step: one at most, as a station releases one entry at a time.
fn put_releases<W: Write>(
    alloc: Global,
    line: &mut String,
    releases: &[ReleaseLog],
    out: &mut W,
) -> Result<(), PutFault>
    ensures { Writes result (W.contents out.old) (W.contents out.new) (flat_map released_text releases.now) }
{
    for release in releases {
        put_released(alloc, line, release, out)?;
    }
    Ok(())
}

/// Writes all that is seen of a step: what it did, and the datagrams and the releases that it added.
///
/// Each line but that of a release whose tape does not set is made in `line`, whose memory serves them all.
pub(crate) fn put_scene<W: Write>(
    alloc: Global,
    line: &mut String,
    step: &ShownStep<'_>,
    out: &mut W,
) -> Result<(), PutFault>
    requires { step.now.before + length step.now.sent.now ≤ usize.MAX }
    ensures { Writes result (W.contents out.old) (W.contents out.new) (shown_text step.now) }
{
    put_outcome(line, step.seen.member, step.seen.outcome, out)?;
    put_datagrams(line, step.before, step.sent, out)?;
    put_releases(alloc, line, step.releases, out)
}
