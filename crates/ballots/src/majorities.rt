//! What a majority of a circuit is.

ghost use Rattle.std.specs.Prelude.{◌≡◌, ◌*◌, ◌<◌, ◌↔◌, ℕ, Bool, IsTrue, count_by};
ghost use Rattle.protocol.specs.Ballots.{is_majority, members as all_members};

/// Whether `count` of the members are a majority: twice their number is more than all.
pub fn majority(count: u8, members: u8) -> bool
    ensures more_than_half { IsTrue result ↔ (members < 2 * count) }
    ensures set { (passes : ℕ → Bool) → count_by passes (all_members members) ≡ count → result ≡ is_majority members passes }
{
    (members as u16) < 2 * (count as u16)
}
