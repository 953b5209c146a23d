//! Unpacking a tape: four frames out of three bytes.

ghost use Rattle.std.specs.Prelude.{◌≡◌, ◌≤◌, ◌++◌, length, OnOk, IfOk};
ghost use Rattle.tape_frames.specs.Packing.{frames_in, IsPacked, unpacked};

use std::alloc::{AllocError, Global};

/// The frames that stand in three bytes, or in the last one or two.
fn put_frames(out: &mut Vec<u8>, bytes: &[u8]) -> Result<(), AllocError>
    requires some { 1 ≤ length bytes.now }
    requires few { length bytes.now ≤ 3 }
    ensures { OnOk result (out.new.items ≡ out.old.items ++ frames_in bytes.now) }
{
    match bytes {
        [x] => out.push(*x / 4)?,
        [x, y] => out.extend_from_slice(&[*x / 4, *x % 4 * 16 + *y / 16])?,
        [x, y, z] => out.extend_from_slice(&[
            *x / 4,
            *x % 4 * 16 + *y / 16,
            *y % 16 * 4 + *z / 64,
            *z % 64,
        ])?,
        _ => unreachable!(),
    }
    Ok(())
}

/// The frames of a packed tape, one a byte. Their memory is asked for once.
pub(crate) fn frames_of(alloc: Global, bytes: &[u8], frames: usize) -> Result<Vec<u8>, AllocError>
    requires { IsPacked frames bytes.now }
    ensures { IfOk result (λ v. v.items ≡ unpacked frames bytes.now) }
{
    // The last three bytes may hold one frame more, which is all pad and falls away.
    let mut out = Vec::with_capacity(alloc, frames + 1)?;
    for group in bytes.chunks(3) {
        put_frames(&mut out, group)?;
    }
    out.truncate(frames);
    Ok(out)
}
