//! The numbers that are under way.

ghost use Rattle.std.specs.Prelude.{◌≡◌};
ghost use Rattle.offers.specs.Rules.{is_under_way};

use ballots::Number;

/// Whether a number is under way, where these are.
pub(crate) fn is_under_way(numbers: &[u32], number: Number) -> bool
    ensures { result ≡ is_under_way number numbers.now }
{
    let wanted = number.get();
    numbers.iter().any(|each| *each == wanted)
}
