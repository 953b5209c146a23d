//! Why bytes are no roll.

/// The first fault of the bytes, in the order in which they stand here; but that bytes which end in the body are found out behind the
/// members.
#[derive(Clone, Copy, PartialEq, Eq)]
pub enum RollFault {
    /// The bytes end before the roll does.
    Short,
    /// The bytes don't begin with `TR`.
    BadMark,
    /// The version is not 1.
    BadVersion,
    /// The kind is not 2 to 5.
    BadKind,
    /// The sender or the addressee is no member, or they are one member.
    BadMember,
    /// The page is above 122.
    BadPage,
    /// A byte behind what an ask says is not 0.
    BadPad,
    /// A count is above the numbers of its page.
    BadCount,
    /// A bit is set that stands for no number.
    BadBits,
    /// Bytes stand after the roll.
    Long,
}
