//! Which station saved rows belong to.

/// A station: its circuit, its member, and how many members the circuit has, `1 <= member <= members <= 15`.
#[derive(Clone, Copy, PartialEq, Eq)]
pub struct Identity {
    pub circuit: u16,
    pub member: u8,
    pub members: u8,
}
