//! The text of an entry.

ghost use Rattle.std.specs.Prelude.{◌≡◌, IfOk, string_bytes};
ghost use Rattle.hex.specs.Hex.{encode_lower};
ghost use Rattle.tape_frames.specs.Entries.{lent_entry};
ghost use Rattle.release_texts.specs.EntryText.{entry_text};

use std::alloc::{AllocError, Global};
use tape_frames::{Entry, EntryRef, PackedRef};

/// The frames of a packed tape, in hex.
fn packed_text(alloc: Global, tape: &PackedRef<'_>) -> Result<String, AllocError>
    ensures { IfOk result (λ t. string_bytes t ≡ encode_lower tape.now) }
{
    match EntryRef::Packed(tape.lend()).copy(alloc)? {
        Entry::Tape(tape) => hex::encode(alloc, tape.frames()),
        Entry::Void => unreachable!(),
    }
}

/// The frames of a tape in lower-case hex, one a byte whether it is packed or not; `void` for a withdrawal.
pub fn entry_text(alloc: Global, entry: &EntryRef<'_>) -> Result<String, AllocError>
    ensures { IfOk result (λ t. string_bytes t ≡ entry_text (lent_entry entry.now)) }
{
    match entry {
        EntryRef::Void => String::from_str(alloc, "void"),
        EntryRef::Plain(tape) => hex::encode(alloc, tape.frames()),
        EntryRef::Packed(tape) => packed_text(alloc, tape),
    }
}
