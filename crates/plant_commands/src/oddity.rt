//! What is odd about the address of a station.

ghost use Rattle.std.specs.Prelude.{◌≡◌};
ghost use Rattle.plant_commands.specs.Oddities.{oddity_of};

use crate::reach::Reach;

/// What is odd about the address of a station.
#[derive(Clone, Copy, PartialEq, Eq)]
pub enum Oddity {
    /// No host has such an address.
    NoHost,
    /// It is reached from elsewhere than that of the first station: whoever reaches the one may not reach the other.
    Apart { own: Reach, first: Reach },
}

/// What is odd about the address of a station that is reached from there, if anything, where the first station's is reached from here.
pub fn oddity_of(first: Reach, own: Reach) -> Option<Oddity>
    ensures { result ≡ oddity_of first own }
{
    match (first, own) {
        (_, Reach::Nowhere) => Some(Oddity::NoHost),
        (Reach::Nowhere, _)
        | (Reach::Itself, Reach::Itself)
        | (Reach::Network, Reach::Network)
        | (Reach::Everywhere, Reach::Everywhere) => None,
        (first, own) => Some(Oddity::Apart { own, first }),
    }
}
