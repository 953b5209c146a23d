//! Why a datagram is not admitted.

use std::fmt;

/// Why a datagram is not admitted.
#[derive(Clone, Copy, PartialEq, Eq)]
pub enum Reason {
    /// It comes from elsewhere than the stations of the circuit.
    Stranger,
    /// It comes from where this station itself listens.
    OwnAddress,
    /// It is sealed, and this station has no key.
    Sealed,
    /// It names another sender than the member that listens where it came from.
    OtherSender,
    /// It is not sealed, and this station has a key.
    NotSealed,
    /// It is sealed under another key, or by a station of another configuration, or was changed on its way.
    OtherKey,
    /// It was sealed by a member that listens elsewhere than where it came from.
    Elsewhere,
    /// It is no part of a packet for this member.
    NoPart,
}

/// What a person reads behind the number of such datagrams.
impl fmt::Display for Reason {
    fn fmt<W: fmt::Write>(&self, f: &mut fmt::Formatter<W>) -> fmt::Result {
        f.write_str(match self {
            Reason::Stranger => "of strangers",
            Reason::OwnAddress => "from the own address",
            Reason::Sealed => "that are sealed",
            Reason::OtherSender => "that name another sender",
            Reason::NotSealed => "that are not sealed",
            Reason::OtherKey => "with another key or configuration",
            Reason::Elsewhere => "that come from elsewhere than their sender listens",
            Reason::NoPart => "that are no part of a packet",
        })
    }
}
