//! Packing a tape: six bits a frame.

ghost use Rattle.std.specs.Prelude.{◌≡◌, ◌≤◌, ◌++◌, length, OnOk, IfOk};
ghost use Rattle.tape_frames.specs.Frames.{AreFrames};
ghost use Rattle.tape_frames.specs.Packing.{AreBytes, Packs, IsPacked, packing_of, unpacked};

use crate::packed::packed_len;
use crate::tape::TapeRef;
use std::alloc::{AllocError, Global};

/// Four frames in three bytes, or the last one to three frames in as many.
fn put_group(out: &mut Vec<u8>, frames: &[u8]) -> Result<(), AllocError>
    requires some { 1 ≤ length frames.now }
    requires few { length frames.now ≤ 4 }
    requires small { AreFrames frames.now }
    ensures { OnOk result (out.new.items ≡ out.old.items ++ packing_of frames.now) }
{
    match frames {
        [a] => out.push(*a * 4)?,
        [a, b] => out.extend_from_slice(&[*a * 4 + *b / 16, *b % 16 * 16])?,
        [a, b, c] => out.extend_from_slice(&[
            *a * 4 + *b / 16,
            *b % 16 * 16 + *c / 4,
            *c % 4 * 64,
        ])?,
        [a, b, c, d] => out.extend_from_slice(&[
            *a * 4 + *b / 16,
            *b % 16 * 16 + *c / 4,
            *c % 4 * 64 + *d,
        ])?,
        _ => unreachable!(),
    }
    Ok(())
}

impl<'a> TapeRef<'a> {
    /// Writes the tape packed, behind what is written. It takes no memory where there is room for [`packed_len`] bytes.
    pub(crate) fn put_packed(&self, out: &mut Vec<u8>) -> Result<(), AllocError>
        ensures { OnOk result (out.new.items ≡ out.old.items ++ packing_of self.now) }
    {
        for group in self.frames().chunks(4) {
            put_group(out, group)?;
        }
        Ok(())
    }

    /// The tape packed: six bits a frame, the highest first, and zero bits behind the last as far as the end
    /// of the last byte. Its memory is asked for once.
    pub fn pack(&self, alloc: Global) -> Result<Vec<u8>, AllocError>
        ensures packs { IfOk result (λ v. Packs self.now v.items) }
        ensures bytes { IfOk result (λ v. AreBytes v.items) }
        // They are a packed tape, and unpacking them gives the tape again.
        ensures packed { IfOk result (λ v. IsPacked (length self.now) v.items) }
        ensures again { IfOk result (λ v. unpacked (length self.now) v.items ≡ self.now) }
        ensures exact { IfOk result (λ v. v.items ≡ packing_of self.now) }
    {
        let frames = self.frames();
        let mut out = Vec::with_capacity(alloc, packed_len(frames.len() as u16))?;
        self.put_packed(&mut out)?;
        Ok(out)
    }
}
