//! What is to be done next.

use ballots::{Member, Number};

/// What is to be done next to catch up.
#[derive(Drop)]
pub enum Errand {
    /// These bytes, which spell a recall or a roll to a member, are sent to it.
    Send { to: Member, bytes: Vec<u8> },
    /// The station tells its vote of a number again to this member; to itself it sends nothing and hears its own.
    Tell { number: Number, to: Member },
    /// The station searches this number.
    Seek { number: Number },
}
