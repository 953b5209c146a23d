//! Why bytes are no packet.

/// The first fault of the bytes. The header's come in the order in which they stand here, from `Short`
/// to `BadSender`; the body's, `Short`, `BadReport`, `BadFrames` and `BadPad`, in the order of its bytes; then `Long`.
#[derive(Clone, Copy, PartialEq, Eq)]
pub enum PacketFault {
    /// The bytes end before the packet does.
    Short,
    /// The bytes don't begin with `TN`.
    BadMark,
    /// The version is none that a station of this version reads: version 1 reads 1 alone, version 2 reads 1 and 2.
    BadVersion,
    /// The kind is not 1 to 5.
    BadKind,
    /// The sender or the addressee is no member, or they are one member.
    BadMember,
    /// The circuit number is not 1 to 999,999.
    BadNumber,
    /// The round is 0, or the owner is no member.
    BadBallot,
    /// The ballot of a Prepare or an Accept is not its sender's, or that of a Promise or a Nack not its addressee's.
    BadSender,
    /// The flag of a report is above 1. Or what stands for a reported ballot, or for the promise of a Nack,
    /// is no ballot, or the one is not below the packet's ballot, or the other not above it.
    BadReport,
    /// In version 1 the length of a tape is 0 or above what it spells, or a frame is above 63;
    /// in version 2 the length is above that of the longest tape.
    BadFrames,
    /// In version 2 a bit behind the last frame is set.
    BadPad,
    /// Bytes stand after the packet.
    Long,
}
