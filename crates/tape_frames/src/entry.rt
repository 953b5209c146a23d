//! Entries, owned and lent: what stations agree on for a number.

ghost use Rattle.std.specs.Prelude.{◌≡◌, ◌↔◌, ◌++◌, length, IfOk, IsOk, IsTrue, OnOk};
ghost use Rattle.protocol.specs.Entries.{Void, Taped};
ghost use Rattle.protocol.specs.Versions.{One, fits};
ghost use Rattle.tape_frames.specs.Entries.{version_of, owned_entry, lent_entry, entry_frames, IsEntry};
ghost use Rattle.tape_frames.specs.Packing.{packing_of};

use crate::packed::PackedRef;
use crate::tape::{Tape, TapeRef};
use crate::version::{Version, fits_one};
use std::alloc::{AllocError, Global};

/// What is agreed on for a number, with frames of its own.
#[derive(Drop)]
pub enum Entry {
    /// The number is withdrawn.
    Void,
    /// The number's tape.
    Tape(Tape),
}

/// What is agreed on for a number, its frames lent.
#[derive(Drop)]
pub enum EntryRef<'a> {
    /// The number is withdrawn.
    Void,
    /// The number's tape, one frame a byte.
    Plain(TapeRef<'a>),
    /// The number's tape, packed.
    Packed(PackedRef<'a>),
}

impl<'a> EntryRef<'a> {
    /// Whether it is a withdrawal.
    fn is_void(&self) -> bool
        ensures { IsTrue result ↔ (lent_entry self.now ≡ Void) }
    {
        matches!(self, EntryRef::Void)
    }

    /// Whether it is this tape.
    fn is_plain(&self, tape: &TapeRef<'_>) -> bool
        ensures { IsTrue result ↔ (lent_entry self.now ≡ Taped tape.now) }
    {
        match self {
            EntryRef::Void => false,
            EntryRef::Plain(own) => own.same(tape.lend()),
            EntryRef::Packed(own) => own.has_frames(tape.frames()),
        }
    }

    /// Whether it is this packed tape.
    fn is_packed(&self, tape: &PackedRef<'_>) -> bool
        ensures { IsTrue result ↔ (lent_entry self.now ≡ Taped tape.now) }
    {
        match self {
            EntryRef::Void => false,
            EntryRef::Plain(own) => tape.has_frames(own.frames()),
            EntryRef::Packed(own) => own.is_packed_as(tape),
        }
    }

    /// Whether both are withdrawals, or tapes of equal frames, packed or not. It takes no memory.
    pub fn same(&self, other: EntryRef<'_>) -> bool
        ensures { IsTrue result ↔ (lent_entry self.now ≡ lent_entry other.entry) }
    {
        match &other {
            EntryRef::Void => self.is_void(),
            EntryRef::Plain(tape) => self.is_plain(tape),
            EntryRef::Packed(tape) => self.is_packed(tape),
        }
    }

    /// Whether the version has a spelling and a row for it: version 1 for a tape of at most 4,096 frames,
    /// version 2 for each entry. It takes no memory.
    pub fn fits(&self, version: Version) -> bool
        ensures { result ≡ fits (version_of version) (lent_entry self.now) }
    {
        match version {
            Version::One => self.fits_one(),
            Version::Two => true,
        }
    }

    /// Whether version 1 has a spelling and a row for it.
    fn fits_one(&self) -> bool
        ensures { result ≡ fits One (lent_entry self.now) }
    {
        match self {
            EntryRef::Void => false,
            EntryRef::Plain(tape) => fits_one(tape.len()),
            EntryRef::Packed(tape) => fits_one(tape.len()),
        }
    }

    /// How many frames it has, none where it is a withdrawal.
    pub fn len(&self) -> usize
        ensures len { result ≡ length (entry_frames (lent_entry self.now)) }
        ensures is_entry { IsEntry (lent_entry self.now) }
    {
        match self {
            EntryRef::Void => 0,
            EntryRef::Plain(tape) => tape.frames().len(),
            EntryRef::Packed(tape) => tape.len(),
        }
    }

    /// Writes its frames, one a byte, behind what is written; nothing of a withdrawal.
    /// It takes no memory where there is room for them.
    pub fn put_plain(&self, out: &mut Vec<u8>) -> Result<(), AllocError>
        ensures { OnOk result (out.new.items ≡ out.old.items ++ entry_frames (lent_entry self.now)) }
    {
        match self {
            EntryRef::Void => Ok(()),
            EntryRef::Plain(tape) => out.extend_from_slice(tape.frames()),
            EntryRef::Packed(tape) => tape.put_plain(out),
        }
    }

    /// Writes its frames packed, behind what is written; nothing of a withdrawal. It takes no memory where there is room
    /// for the [`packed_len`](crate::packed_len) bytes of its length.
    pub fn put_packed(&self, out: &mut Vec<u8>) -> Result<(), AllocError>
        ensures { OnOk result (out.new.items ≡ out.old.items ++ packing_of (entry_frames (lent_entry self.now))) }
    {
        match self {
            EntryRef::Void => Ok(()),
            EntryRef::Plain(tape) => tape.put_packed(out),
            EntryRef::Packed(tape) => out.extend_from_slice(tape.bytes()),
        }
    }

    /// The same entry, lent once more.
    pub fn lend(&self) -> EntryRef<'a>
        ensures { lent_entry result ≡ lent_entry self.now }
    {
        match self {
            EntryRef::Void => EntryRef::Void,
            EntryRef::Plain(tape) => EntryRef::Plain(tape.lend()),
            EntryRef::Packed(tape) => EntryRef::Packed(tape.lend()),
        }
    }

    /// An equal entry, its frames one a byte. A withdrawal takes no memory, nor does a tape that is lent by its owner, since both
    /// share its frames; those of other bytes are copied, and the memory for them is asked for once.
    pub fn copy(&self, alloc: Global) -> Result<Entry, AllocError>
        ensures same { IfOk result (λ e. owned_entry e ≡ lent_entry self.now) }
        ensures no_memory { lent_entry self.now ≡ Void → IsOk result }
    {
        let entry = match self {
            EntryRef::Void => Entry::Void,
            EntryRef::Plain(tape) => Entry::Tape(tape.copy(alloc)?),
            EntryRef::Packed(tape) => Entry::Tape(tape.unpack(alloc)?),
        };
        Ok(entry)
    }
}

impl Entry {
    /// The same entry, its frames lent.
    pub fn lend(&self) -> EntryRef<'_>
        ensures { lent_entry result ≡ owned_entry self.now }
    {
        match self {
            Entry::Void => EntryRef::Void,
            Entry::Tape(tape) => EntryRef::Plain(tape.lend()),
        }
    }
}
