//! Bytes of 8 bits as flags.

ghost use Rattle.std.specs.Prelude.{◌≡◌, ◌<◌, ◌*◌, length};
ghost use Rattle.rolls.specs.Votes.{bit_of};

/// Whether a bit is set, counted from the lowest of the first byte.
pub(crate) fn has_bit(bytes: &[u8], place: usize) -> bool
    requires { place < 8 * length bytes.now }
    ensures { result ≡ bit_of bytes.now place }
{
    (bytes[place / 8] >> (place % 8)) & 1 == 1
}
