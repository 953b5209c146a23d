//! From where an address is reached.

ghost use Rattle.std.specs.Prelude.{◌≡◌};
ghost use Rattle.plant_commands.specs.Reaches.{is_of_no_host, is_private, reach_of};

use std::fmt;

/// From where a host is reached that has an address.
#[derive(Clone, Copy, PartialEq, Eq)]
pub enum Reach {
    /// From nowhere: no host has such an address as its own.
    Nowhere,
    /// From itself.
    Itself,
    /// From its own network.
    Network,
    /// From everywhere.
    Everywhere,
}

impl fmt::Display for Reach {
    fn fmt<W: fmt::Write>(&self, f: &mut fmt::Formatter<W>) -> fmt::Result {
        f.write_str(match self {
            Reach::Nowhere => "no host's",
            Reach::Itself => "a loopback",
            Reach::Network => "a private",
            Reach::Everywhere => "a public",
        })
    }
}

/// Whether no host has an address as its own whose first number is this one: such are of no network, of groups, or set aside.
#[tactic(auto, unfolding(crate::specs::Reaches::is_of_no_host))]
fn is_of_no_host(first: u8) -> bool
    ensures { result ≡ is_of_no_host first }
{
    first == 0 || first >= 224
}

/// Whether an address with these first two numbers is one of a network of its own (RFC 1918, RFC 3927, RFC 6598).
#[tactic(auto, unfolding(crate::specs::Reaches::is_private))]
fn is_private(first: u8, second: u8) -> bool
    ensures { result ≡ is_private first second }
{
    match first {
        10 => true,
        100 => 64 <= second && second <= 127,
        169 => second == 254,
        172 => 16 <= second && second <= 31,
        192 => second == 168,
        _ => false,
    }
}

/// From where a host is reached whose IP address begins with these two numbers.
#[tactic(auto, unfolding(crate::specs::Reaches::reach_of))]
pub fn reach_of(first: u8, second: u8) -> Reach
    ensures { result ≡ reach_of first second }
{
    if is_of_no_host(first) {
        Reach::Nowhere
    } else if first == 127 {
        Reach::Itself
    } else if is_private(first, second) {
        Reach::Network
    } else {
        Reach::Everywhere
    }
}
