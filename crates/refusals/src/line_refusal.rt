//! Why a line is not answered.

ghost use Rattle.std.specs.Prelude.{◌≡◌};
ghost use Rattle.refusals.specs.RefusalWords.{fault_word, word_of};

use packets::PacketFault;

/// Why a line of `answer` is refused, in order of precedence.
#[derive(Clone, Copy)]
pub enum Refusal {
    /// It is not pairs of hex digits.
    NotHex,
    /// Its bytes are no packet.
    Packet(PacketFault),
    /// It is of another circuit.
    WrongCircuit,
    /// It is for another member.
    NotForMe,
    /// It is a Promise, an Accepted or a Nack.
    NotARequest,
}

fn fault_word(fault: PacketFault) -> &'static str
    ensures { result.now ≡ fault_word fault }
{
    match fault {
        PacketFault::Short => "short",
        PacketFault::BadMark => "bad-mark",
        PacketFault::BadVersion => "bad-version",
        PacketFault::BadKind => "bad-kind",
        PacketFault::BadMember => "bad-member",
        PacketFault::BadNumber => "bad-number",
        PacketFault::BadBallot => "bad-ballot",
        PacketFault::BadSender => "bad-sender",
        PacketFault::BadReport => "bad-report",
        PacketFault::BadFrames => "bad-frames",
        PacketFault::BadPad => "bad-pad",
        PacketFault::Long => "long",
    }
}

impl Refusal {
    /// The word that stands for it.
    pub fn word(self) -> &'static str
        ensures { result.now ≡ word_of self }
    {
        match self {
            Refusal::NotHex => "not-hex",
            Refusal::Packet(fault) => fault_word(fault),
            Refusal::WrongCircuit => "wrong-circuit",
            Refusal::NotForMe => "not-for-me",
            Refusal::NotARequest => "not-a-request",
        }
    }
}
