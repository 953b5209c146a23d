//! Versions of packets and saved rows.

ghost use Rattle.std.specs.Prelude.{◌≡◌, ◌&&◌, nat_le};
ghost use Rattle.protocol.specs.Limits.{most_frames_one};

/// The most frames of a tape that version 1 has a spelling and a row for.
pub const MAX_FRAMES_ONE: usize = 4096;

/// The version in which a station spells its packets and saves its rows.
#[derive(Clone, Copy, PartialEq, Eq)]
pub enum Version {
    /// Tapes of at most 4,096 frames, one frame a byte.
    One,
    /// Tapes of every length, packed, and withdrawn numbers.
    Two,
}

/// Whether version 1 has a spelling and a row for a tape of so many frames.
pub(crate) fn fits_one(frames: usize) -> bool
    ensures { result ≡ (nat_le 1 frames && nat_le frames most_frames_one) }
{
    1 <= frames && frames <= MAX_FRAMES_ONE
}
