//! Whose file it is.

ghost use Rattle.std.specs.Prelude.{◌≡◌};
ghost use Rattle.gone_out.specs.Origins.{word, check};

use ballots::Member;

/// The station whose file it is: a member of a circuit that has so many members.
#[derive(Clone, Copy, PartialEq, Eq)]
pub struct Origin {
    /// The circuit's number.
    pub circuit: u16,
    pub member: Member,
    /// How many members the circuit has.
    pub count: u8,
}

impl Origin {
    /// Its four bytes in the head of the file, read as a number.
    fn word(&self) -> u32
        ensures { result ≡ word self.now }
    {
        let [c1, c0] = self.circuit.to_be_bytes();
        u32::from_be_bytes([c1, c0, self.member.get(), self.count])
    }

    /// What stands behind a number in its record, and with 0 at the end of the head: the number plus the four bytes of the station,
    /// hashed by multiplication (Knuth, *The Art of Computer Programming*, volume 3, 6.4).
    pub(crate) fn check(&self, number: u32) -> u32
        ensures { result ≡ check self.now number }
    {
        self.word().wrapping_add(number).wrapping_mul(2_654_435_761)
    }
}
