//! The bits of a byte.

ghost use Rattle.std.specs.Prelude.{◌≡◌, ◌≤◌};
ghost use Rattle.reel.specs.Levels.{weight_of, is_set, is_hole};

/// A bit of a byte, the lowest first.
#[derive(Clone, Copy, PartialEq, Eq)]
pub enum Bit {
    B0,
    B1,
    B2,
    B3,
    B4,
    B5,
    B6,
    B7,
}

/// All of them, the highest first.
pub(crate) const ALL: [Bit; 8] = [
    Bit::B7,
    Bit::B6,
    Bit::B5,
    Bit::B4,
    Bit::B3,
    Bit::B2,
    Bit::B1,
    Bit::B0,
];

impl Bit {
    /// What it counts for in a byte.
    fn weight(self) -> u8
        ensures value { result ≡ weight_of self }
        ensures some { 1 ≤ result }
    {
        match self {
            Bit::B0 => 1,
            Bit::B1 => 2,
            Bit::B2 => 4,
            Bit::B3 => 8,
            Bit::B4 => 16,
            Bit::B5 => 32,
            Bit::B6 => 64,
            Bit::B7 => 128,
        }
    }

    /// Whether it is set in a byte.
    pub(crate) fn is_set(self, byte: u8) -> bool
        ensures { result ≡ is_set self byte }
    {
        byte / self.weight() % 2 == 1
    }

    /// Whether a reader has a hole there in a byte: where it is set, or where it is clear if the reader has it the other way.
    pub(crate) fn is_hole(self, inverted: bool, byte: u8) -> bool
        ensures { result ≡ is_hole inverted self byte }
    {
        if inverted {
            !self.is_set(byte)
        } else {
            self.is_set(byte)
        }
    }
}
