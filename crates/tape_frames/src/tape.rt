//! Tapes, owned and lent.

ghost use Rattle.std.specs.Prelude.{◌≡◌, ◌≤◌, length, IfOk, IfErr, IsTrue, ◌↔◌, Some, None, MatchResult, MatchOption, nat_le, nat_lt};
ghost use Rattle.std.specs.List.{list_all, position_from};
ghost use Rattle.tape_frames.specs.Frames.{IsTape, tape_fault};
ghost use Rattle.tape_frames.specs.declared.fault.TapeFault.TheVariants.{OutOfMemory};

use crate::fault::TapeFault;
use std::alloc::{AllocError, Global};
use std::marker::Model;
use std::rc::Rc;

/// The most frames that a tape has.
pub const MAX_FRAMES: usize = 16_384;

/// A tape: 1 to [`MAX_FRAMES`] frames, each below 64. Clauses see the list of its frames.
///
/// Nothing changes the frames of a tape, so its copies share them.
#[derive(Drop)]
pub struct Tape {
    frames: Rc<Vec<u8>>,
}

impl Model for Tape {
    ghost use Rattle.std.specs.Prelude.{List, ℕ};
    ghost use Rattle.tape_frames.specs.Frames.{IsTape};

    ghost Value = { List ℕ };

    ghost view = { λ t. t.frames.value.items };

    ghost invariant = { λ t. IsTape t.frames.value.items };
}

/// A tape whose frames are lent, by a tape or from other bytes. Clauses see the list of its frames.
#[derive(Drop)]
pub struct TapeRef<'a> {
    frames: &'a [u8],
    /// The tape that lends them, if one does: a copy shares its frames.
    owner: Option<&'a Rc<Vec<u8>>>,
}

impl<'a> Model for TapeRef<'a> {
    ghost use Rattle.std.specs.Prelude.{◌≡◌, List, ℕ, IfSome};
    ghost use Rattle.tape_frames.specs.Frames.{IsTape};

    ghost Value = { List ℕ };

    ghost view = { λ t. t.frames.now };

    ghost invariant = { λ t. IsTape t.frames.now × IfSome t.owner (λ o. o.now.value.items ≡ t.frames.now) };
}

/// Whether each byte is a frame. It looks at all of them, without a stop at one that is none, so that many are compared
/// at a time.
fn are_frames(bytes: &[u8]) -> bool
    ensures { result ≡ list_all (λ f. nat_le f 63) bytes.now }
{
    let mut all = true;
    for byte in bytes {
        all = *byte <= 63 && all;
    }
    all
}

/// The place of the first frame above 63.
#[tactic(auto, using(crate::proofs::Frames::none_bad))]
fn first_bad(bytes: &[u8]) -> Option<usize>
    ensures { result ≡ position_from (λ f. nat_lt 63 f) 0 bytes.now }
{
    if are_frames(bytes) {
        return None;
    }
    bytes.iter().position(|f| *f > 63)
}

/// What is wrong with the bytes of a tape, if anything.
fn fault_of(bytes: &[u8]) -> Option<TapeFault>
    ensures { result ≡ tape_fault bytes.now }
{
    if bytes.is_empty() {
        return Some(TapeFault::Empty);
    }
    if bytes.len() > MAX_FRAMES {
        return Some(TapeFault::TooLong { len: bytes.len() });
    }
    match first_bad(bytes) {
        Some(at) => Some(TapeFault::BadFrame { at }),
        None => None,
    }
}

impl<'a> TapeRef<'a> {
    /// The tape of these frames, one a byte.
    ///
    /// The first fault that holds is answered: `Empty`, `TooLong`, or `BadFrame` with the place, from 0,
    /// of the first frame above 63.
    #[tactic(auto, using(crate::proofs::Frames::is_tape))]
    pub fn from_bytes(bytes: &'a [u8]) -> Result<TapeRef<'a>, TapeFault>
        ensures { MatchResult result (λ t. (tape_fault bytes.now ≡ None) × (t ≡ bytes.now)) (λ e. tape_fault bytes.now ≡ Some e) }
    {
        match fault_of(bytes) {
            None => Ok(TapeRef {
                frames: bytes,
                owner: None,
            }),
            Some(fault) => Err(fault),
        }
    }

    /// Its frames, in order, one a byte.
    pub fn frames(&self) -> &'a [u8]
        ensures frames { result.now ≡ self.now }
        ensures is_tape { IsTape self.now }
    {
        self.frames
    }

    /// How many frames it has, 1 to [`MAX_FRAMES`].
    pub fn len(&self) -> usize
        ensures { result ≡ length self.now }
    {
        self.frames.len()
    }

    /// Whether the frames are equal.
    pub fn same(&self, other: TapeRef<'_>) -> bool
        ensures { IsTrue result ↔ (self.now ≡ other.entry) }
    {
        self.frames == other.frames
    }

    /// The same tape, lent once more.
    pub fn lend(&self) -> TapeRef<'a>
        ensures { result ≡ self.now }
    {
        TapeRef {
            frames: self.frames,
            owner: self.owner,
        }
    }

    /// An equal tape. It shares the frames of the tape that lends them, and takes no memory then; those that no tape lends are
    /// copied.
    pub fn copy(&self, alloc: Global) -> Result<Tape, AllocError>
        ensures { IfOk result (λ t. t ≡ self.now) }
    {
        match self.owner {
            Some(owner) => share(owner),
            None => Tape::of_frames(alloc, Vec::from_slice(alloc, self.frames)?),
        }
    }
}

/// One more owner of the same frames.
fn share(owner: &Rc<Vec<u8>>) -> Result<Tape, AllocError>
    requires { IsTape owner.now.value.items }
    ensures { IfOk result (λ t. t ≡ owner.now.value.items) }
{
    let frames = owner.clone()?;
    Ok(Tape { frames })
}

impl Tape {
    /// The tape that owns these frames.
    pub(crate) fn of_frames(alloc: Global, frames: Vec<u8>) -> Result<Tape, AllocError>
        requires { IsTape frames.items }
        ensures { IfOk result (λ t. t ≡ frames.items) }
    {
        match Rc::new(alloc, frames) {
            Ok(frames) => Ok(Tape { frames }),
            Err(_) => Err(AllocError),
        }
    }

    /// The tape of these frames, one a byte, copied.
    ///
    /// The faults are those of [`TapeRef::from_bytes`], and then `OutOfMemory`.
    pub fn from_bytes(alloc: Global, bytes: &[u8]) -> Result<Tape, TapeFault>
        ensures ok { IfOk result (λ t. (tape_fault bytes.now ≡ None) × (t ≡ bytes.now)) }
        ensures err { IfErr result (λ e. MatchOption (tape_fault bytes.now) (e ≡ OutOfMemory) (λ f. e ≡ f)) }
    {
        let tape = TapeRef::from_bytes(bytes)?;
        tape.copy(alloc).map_err(|_| TapeFault::OutOfMemory)
    }

    /// The tape of these frames, one a byte, which it takes over.
    ///
    /// The faults are those of [`Tape::from_bytes`].
    #[tactic(auto, using(crate::proofs::Frames::is_tape))]
    pub fn from_vec(alloc: Global, bytes: Vec<u8>) -> Result<Tape, TapeFault>
        ensures ok { IfOk result (λ t. (tape_fault bytes.items ≡ None) × (t ≡ bytes.items)) }
        ensures err { IfErr result (λ e. MatchOption (tape_fault bytes.items) (e ≡ OutOfMemory) (λ f. e ≡ f)) }
    {
        match fault_of(&bytes) {
            None => Tape::of_frames(alloc, bytes).map_err(|_| TapeFault::OutOfMemory),
            Some(fault) => Err(fault),
        }
    }

    /// The same tape, lent.
    pub fn lend(&self) -> TapeRef<'_>
        ensures { result ≡ self.now }
    {
        TapeRef {
            frames: self.frames.as_ref().as_slice(),
            owner: Some(&self.frames),
        }
    }

    /// Its frames, in order, one a byte.
    pub fn frames(&self) -> &[u8]
        ensures frames { result.now ≡ self.now }
        ensures is_tape { IsTape self.now }
    {
        self.lend().frames()
    }

    /// How many frames it has, 1 to [`MAX_FRAMES`].
    pub fn len(&self) -> usize
        ensures { result ≡ length self.now }
    {
        self.lend().len()
    }

    /// Whether the frames are equal.
    pub fn same(&self, other: TapeRef<'_>) -> bool
        ensures { IsTrue result ↔ (self.now ≡ other.entry) }
    {
        self.lend().same(other)
    }

    /// Its frames, in order, one a byte, which it shares. It takes no memory: an error comes only where there are more owners than can be
    /// counted.
    pub fn shared_frames(&self) -> Result<Rc<Vec<u8>>, AllocError>
        ensures { IfOk result (λ r. r.value.items ≡ self.now) }
    {
        self.frames.clone()
    }

    /// An equal tape, which shares the frames. It takes no memory: an error comes only where there are more owners than can be counted.
    pub fn copy(&self) -> Result<Tape, AllocError>
        ensures { IfOk result (λ t. t ≡ self.now) }
    {
        share(&self.frames)
    }
}
