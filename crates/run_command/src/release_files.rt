//! Releases as files.

ghost use Rattle.std.specs.Prelude.{◌≡◌, ◌++◌, IfOk, codes, string_bytes};
ghost use Rattle.refusals.specs.CauseWords.{cause_text};
ghost use Rattle.station.specs.Readiness.{slugs_of};
ghost use Rattle.run_command.specs.ReleaseFiles.{file, galley_text};

use folders::{NamedFile, file_name};
use line_check::{SetFault, Slug, galley};
use refusals::CauseText;
use std::alloc::{AllocError, Global};
use tape_frames::Tape;

/// A file of this number and kind.
pub(crate) fn file(
    alloc: Global,
    number: u32,
    kind: &str,
    bytes: Vec<u8>,
) -> Result<NamedFile, AllocError>
    ensures { IfOk result (λ p. p ≡ file number kind.now bytes.items) }
{
    let name = file_name(alloc, number, kind)?;
    NamedFile::new(alloc, name, bytes)
}

/// The file of a tape, one frame a byte, which it shares with the tape.
pub(crate) fn tape_file(alloc: Global, number: u32, tape: &Tape) -> Result<NamedFile, AllocError>
    ensures { IfOk result (λ p. p ≡ file number (codes ".tape") tape.now) }
{
    let name = file_name(alloc, number, ".tape")?;
    let bytes = tape.shared_frames()?;
    Ok(NamedFile { name, bytes })
}

/// The line that stands in place of a galley where a tape does not set.
fn text_of_fault(alloc: Global, fault: SetFault) -> Result<String, AllocError>
    ensures { IfOk result (λ t. string_bytes t ≡ codes "fault: " ++ (cause_text fault ++ codes "\n")) }
{
    let cause = CauseText(fault);
    format!(in alloc; "fault: {cause}\n")
}

/// The text of a galley, a line for each slug, or of why there is none.
pub(crate) fn galley_text(
    alloc: Global,
    set: &Result<Vec<Slug>, SetFault>,
) -> Result<Vec<u8>, AllocError>
    ensures { IfOk result (λ v. v.items ≡ galley_text (slugs_of set.now)) }
{
    match set {
        Ok(slugs) => {
            let mut text = Vec::new(alloc);
            match galley(slugs.as_slice(), &mut text) {
                Ok(()) => Ok(text),
                Err(_) => Err(AllocError),
            }
        }
        Err(fault) => Ok(text_of_fault(alloc, *fault)?.into_bytes()),
    }
}
