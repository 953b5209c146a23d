//! Why a station refuses a step.

use line_check::SetFault;
use packets::PacketFault;
use rows_saved::RowsFault;

/// Why a step was refused. The first that holds is answered, in the order in which they stand here, but that
/// `Store` and `OutOfMemory` come where the store or a growth fails. These two stop the station: nothing is
/// handed out, and it refuses each step until a restart, or an upgrade that is Ok. No other changes anything, but that a
/// station that is not stopped speaks the version of its rows then.
#[derive(Clone, Copy, PartialEq, Eq)]
pub enum StepRefusal {
    /// An earlier step stopped the station.
    Stopped,
    /// The bytes spell no packet.
    BadDatagram(PacketFault),
    /// The packet is of another circuit.
    WrongCircuit,
    /// The packet is for another member.
    NotForMe,
    /// The sender, or the owner of a ballot in the packet, is above the member count.
    Stranger,
    /// The number is not 1 to 999,999.
    BadNumber,
    /// The member that is to be told a vote again is none of the circuit's.
    NoSuchMember,
    /// The number's entry was released since the station started.
    AlreadyReleased,
    /// The number has an open proposal.
    AlreadyOpen,
    /// The version of the station's rows has no spelling for what is offered: at version 1 for a withdrawal, and for a
    /// tape above 4,096 frames.
    WireTooOld,
    /// The tape that is offered does not set here.
    TapeFaulty(SetFault),
    /// No ballot is left above the number's saved promise.
    RoundsSpent,
    /// The number's row could not be read or saved.
    Store(RowsFault),
    /// A growth was refused before the row was saved.
    OutOfMemory,
}
