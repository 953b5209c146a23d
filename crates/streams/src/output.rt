//! Output that stops at the first fault.

ghost use Rattle.std.specs.Prelude.{◌≡◌, OnOk, OnErr, flat_map};
ghost use Rattle.std.specs.Io.KnownBytes.{Appends, Keeps};
ghost use Rattle.streams.specs.Fronts.{AppendsFront};
ghost use Rattle.streams.specs.Writing.{Writes};
ghost use Rattle.streams.specs.declared.output.PutFault.TheVariants.{OutOfMemory, CannotWrite};

use std::alloc::{AllocError, AllocFailed};
use std::io;
use std::io::Write;

/// A writer took less than all.
#[derive(Clone, Copy, PartialEq, Eq)]
pub struct CannotWrite;

impl From<io::Error> for CannotWrite {
    fn from(_error: io::Error) -> CannotWrite {
        CannotWrite
    }
}

/// Why a text was not written whole.
#[derive(Clone, Copy)]
pub enum PutFault {
    /// Memory for it was refused.
    OutOfMemory,
    /// The output did not take all of it.
    CannotWrite,
}

impl From<AllocError> for PutFault {
    ghost from_gives = { λ _ fault. fault ≡ OutOfMemory };

    fn from(_error: AllocError) -> PutFault {
        PutFault::OutOfMemory
    }
}

impl<T: Drop> From<AllocFailed<T>> for PutFault {
    ghost from_gives = { λ _ fault. fault ≡ OutOfMemory };

    fn from(_error: AllocFailed<T>) -> PutFault {
        PutFault::OutOfMemory
    }
}

impl From<CannotWrite> for PutFault {
    ghost from_gives = { λ _ fault. fault ≡ CannotWrite };

    fn from(_error: CannotWrite) -> PutFault {
        PutFault::CannotWrite
    }
}

/// Writes all the bytes. A write that takes none or fails ends it, and then a front of the bytes was written:
/// the standard library's own call says nothing of what a writer that failed has taken.
pub fn put_all<W: Write>(out: &mut W, bytes: &[u8]) -> Result<(), CannotWrite>
    ensures ok { OnOk result (Appends (W.contents out.old) (W.contents out.new) bytes.now) }
    ensures err { OnErr result (AppendsFront (W.contents out.old) (W.contents out.new) bytes.now) }
{
    let mut at = 0;
    while at < bytes.len() {
        let (_, rest) = bytes.split_at(at);
        match out.write(rest) {
            Ok(0) => return Err(CannotWrite),
            Ok(n) => at += n,
            Err(_) => return Err(CannotWrite),
        }
    }
    Ok(())
}

/// Writes the parts one after another. Where the writer fails, it has a front of their text.
pub fn put_parts<W: Write>(out: &mut W, parts: &[&[u8]]) -> Result<(), CannotWrite>
    ensures ok { OnOk result (Appends (W.contents out.old) (W.contents out.new) (flat_map (λ part. part.now) parts.now)) }
    ensures err { OnErr result (AppendsFront (W.contents out.old) (W.contents out.new) (flat_map (λ part. part.now) parts.now)) }
{
    for part in parts {
        put_all(out, part)?;
    }
    Ok(())
}

/// Hands on what a writer has kept back.
pub fn hand_on<W: Write>(out: &mut W) -> Result<(), CannotWrite>
    ensures { Keeps (W.contents out.old) (W.contents out.new) }
{
    out.flush()?;
    Ok(())
}

/// Writes a text, and hands it on.
pub fn put_whole<W: Write>(out: &mut W, text: &[u8]) -> Result<(), CannotWrite>
    ensures { Writes result (W.contents out.old) (W.contents out.new) text.now }
{
    put_all(out, text)?;
    hand_on(out)
}
