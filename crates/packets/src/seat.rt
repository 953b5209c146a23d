//! Where a station sits.

ghost use Rattle.std.specs.Prelude.{◌≡◌, ◌≤◌};
ghost use Rattle.protocol.specs.Limits.{most_members};

use ballots::Member;
use ballots::laws::range_of_member;
use std::marker::Model;

/// A member of a circuit. Clauses see the numbers.
#[derive(Clone, Copy)]
pub struct Seat {
    circuit: u16,
    me: Member,
    members: u8,
}

impl Model for Seat {
    ghost use Rattle.std.specs.Prelude.{◌≤◌};
    ghost use Rattle.protocol.specs.Seats.{Seat as SeatValue};
    ghost use Rattle.protocol.specs.Limits.{most_members};

    ghost Value = { SeatValue };

    ghost view = { λ s. record { circuit = s.circuit; me = s.me; members = s.members } };

    ghost invariant = { λ s. (1 ≤ s.me) × (s.me ≤ s.members) × (s.members ≤ most_members) };

    ghost inverse = { λ s. record { circuit = s.circuit; me = s.me; members = s.members } };
}

impl Seat {
    /// The seat of a member, in a circuit of at most 15.
    pub fn new(circuit: u16, me: Member, members: u8) -> Seat
        requires member { me ≤ members }
        requires few { members ≤ most_members }
        ensures { result ≡ record { circuit = circuit; me = me; members = members } }
    {
        range_of_member(me);
        Seat {
            circuit,
            me,
            members,
        }
    }

    /// The circuit's number.
    pub fn circuit(self) -> u16
        ensures { result ≡ self.circuit }
    {
        self.circuit
    }

    /// The member.
    pub fn me(self) -> Member
        ensures value { result ≡ self.me }
        ensures member { (1 ≤ self.me) × (self.me ≤ self.members) × (self.members ≤ most_members) }
    {
        self.me
    }

    /// How many members the circuit has, 1 to 15.
    pub fn members(self) -> u8
        ensures value { result ≡ self.members }
        ensures low { 1 ≤ result }
        ensures few { result ≤ most_members }
    {
        self.members
    }
}
