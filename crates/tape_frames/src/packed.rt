//! Packed tapes: six bits a frame.

ghost use Rattle.std.specs.Prelude.{◌≡◌, ◌≤◌, ◌↔◌, ◌++◌, length, slice_get, IsSome, IfSome, IfOk, OnOk, IsTrue};
ghost use Rattle.tape_frames.specs.Frames.{IsTape};
ghost use Rattle.tape_frames.specs.Packing.{Packs, IsWhole, IsPacked, packed_len, packing_of, pad_of, unpacked};

use crate::tape::{MAX_FRAMES, Tape};
use crate::unpacking::frames_of;
use std::alloc::{AllocError, Global};
use std::marker::Model;

/// A packed tape whose bytes are lent: six bits a frame, the highest first, and zero bits behind the last as far
/// as the end of the last byte. Clauses see the list of its frames.
#[derive(Drop)]
pub struct PackedRef<'a> {
    length: u16,
    bytes: &'a [u8],
}

impl<'a> Model for PackedRef<'a> {
    ghost use Rattle.std.specs.Prelude.{List, ℕ};
    ghost use Rattle.tape_frames.specs.Packing.{IsPacked, unpacked};

    ghost Value = { List ℕ };

    ghost view = { λ p. unpacked p.length p.bytes.now };

    ghost invariant = { λ p. IsPacked p.length p.bytes.now };
}

/// How many bytes so many frames are packed in.
pub fn packed_len(frames: u16) -> usize
    ensures { result ≡ packed_len frames }
{
    (3 * usize::from(frames) + 3) / 4
}

/// The bits of the last byte behind the last frame.
fn pad_of(frames: usize, bytes: &[u8]) -> u8
    requires { 1 ≤ length bytes.now }
    ensures { result ≡ pad_of frames bytes.now }
{
    let last = bytes[bytes.len() - 1];
    match frames % 4 {
        0 => 0,
        1 => last % 4,
        2 => last % 16,
        _ => last % 64,
    }
}

/// The frame at this place, of so many that are packed in the bytes; `None` from their number on.
fn frame_at(bytes: &[u8], frames: usize, i: usize) -> Option<u8>
    requires { IsPacked frames bytes.now }
    ensures { result ≡ slice_get (unpacked frames bytes.now) i }
{
    if i >= frames {
        return None;
    }
    let at = i / 4 * 3;
    let frame = match i % 4 {
        0 => bytes[at] / 4,
        1 => bytes[at] % 4 * 16 + bytes[at + 1] / 16,
        2 => bytes[at + 1] % 16 * 4 + bytes[at + 2] / 64,
        _ => bytes[at + 2] % 64,
    };
    Some(frame)
}

impl<'a> PackedRef<'a> {
    /// The packed tape of so many frames; `None` where it is none: where a tape has never so many, where they take another
    /// number of bytes, or where a bit behind the last is set. So where [`packed_len`] bytes were taken for 1 to
    /// [`MAX_FRAMES`] frames, `None` says that such a bit is set. It takes no memory.
    pub fn new(length: u16, bytes: &'a [u8]) -> Option<PackedRef<'a>>
        ensures some { IsSome result ↔ IsPacked length bytes.now }
        ensures value { IfSome result (λ p. p ≡ unpacked length bytes.now) }
        // Where the length is a tape's and has its bytes, the pad alone decides.
        ensures pad { IsWhole length bytes.now → (IsSome result ↔ (pad_of length bytes.now ≡ 0)) }
        ensures packs { IfSome result (λ p. Packs p bytes.now) }
        ensures is_tape { IfSome result (λ p. IsTape p) }
    {
        let frames = usize::from(length);
        if frames < 1 || frames > MAX_FRAMES {
            return None;
        }
        if bytes.len() != packed_len(length) || pad_of(frames, bytes) != 0 {
            return None;
        }
        Some(PackedRef { length, bytes })
    }

    /// The frame at this place; `None` from its length on.
    pub fn frame(&self, i: usize) -> Option<u8>
        ensures { result ≡ slice_get self.now i }
    {
        frame_at(self.bytes, usize::from(self.length), i)
    }

    /// How many frames it has.
    pub fn len(&self) -> usize
        ensures len { result ≡ length self.now }
        ensures is_tape { IsTape self.now }
    {
        usize::from(self.length)
    }

    /// Its bytes: the frames packed, [`packed_len`] bytes of them.
    pub fn bytes(&self) -> &'a [u8]
        ensures packed { IsPacked (length self.now) result.now }
        ensures unpacked { unpacked (length self.now) result.now ≡ self.now }
        ensures packs { Packs self.now result.now }
        ensures exact { result.now ≡ packing_of self.now }
    {
        self.bytes
    }

    /// The same packed tape, lent once more.
    pub fn lend(&self) -> PackedRef<'a>
        ensures { result ≡ self.now }
    {
        PackedRef {
            length: self.length,
            bytes: self.bytes,
        }
    }

    /// Whether the frames are equal: then the bytes are.
    pub(crate) fn is_packed_as(&self, other: &PackedRef<'_>) -> bool
        ensures { IsTrue result ↔ (self.now ≡ other.now) }
    {
        self.length == other.length && self.bytes == other.bytes
    }

    /// Whether these are its frames.
    pub(crate) fn has_frames(&self, frames: &[u8]) -> bool
        ensures { IsTrue result ↔ (self.now ≡ frames.now) }
    {
        if frames.len() != self.len() {
            return false;
        }
        for (i, frame) in frames.iter().enumerate() {
            if self.frame(i) != Some(*frame) {
                return false;
            }
        }
        true
    }

    /// Writes its frames, one a byte, behind what is written. It takes no memory where there is room for them.
    pub(crate) fn put_plain(&self, out: &mut Vec<u8>) -> Result<(), AllocError>
        ensures { OnOk result (out.new.items ≡ out.old.items ++ self.now) }
    {
        for i in 0..self.len() {
            if let Some(frame) = self.frame(i) {
                out.push(frame)?;
            }
        }
        Ok(())
    }

    /// The tape with frames of its own, one a byte. The memory for them is asked for once.
    pub(crate) fn unpack(&self, alloc: Global) -> Result<Tape, AllocError>
        ensures { IfOk result (λ t. t ≡ self.now) }
    {
        let frames = frames_of(alloc, self.bytes, usize::from(self.length))?;
        Tape::of_frames(alloc, frames)
    }
}
