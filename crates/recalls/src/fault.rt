//! Why bytes are no recall.

/// The first fault of the bytes, in the order in which they stand here; but that bytes which end among the numbers, and the faults of
/// numbers, come in the order of the numbers.
#[derive(Clone, Copy, PartialEq, Eq)]
pub enum RecallFault {
    /// The bytes end before the recall does.
    Short,
    /// The bytes don't begin with `TR`.
    BadMark,
    /// The version is not 1.
    BadVersion,
    /// The kind is not 1.
    BadKind,
    /// The sender or the addressee is no member, or they are one member.
    BadMember,
    /// There are no numbers, or more than 64.
    BadCount,
    /// A number is not 1 to 999,999.
    BadNumber,
    /// A number is not above the one before it.
    BadOrder,
    /// Bytes stand after the recall.
    Long,
}
