//! The members of a circuit.

ghost use Rattle.std.specs.Prelude.{◌≡◌, ◌≤◌, IsSome, IfSome, ◌↔◌};
ghost use Rattle.protocol.specs.Limits.{most_members};

use std::marker::Model;

/// The most members of a circuit.
pub const MOST_MEMBERS: usize = Member::LAST as usize;

/// A member of a circuit, 1 to 15. Clauses see its number.
#[derive(Clone, Copy, PartialEq, Eq)]
pub struct Member {
    value: u8,
}

impl Model for Member {
    ghost use Rattle.std.specs.Prelude.{ℕ, ◌≤◌};
    ghost use Rattle.protocol.specs.Limits.{most_members};

    ghost Value = { ℕ };

    ghost view = { λ m. m.value };

    ghost invariant = { λ m. (1 ≤ m.value) × (m.value ≤ most_members) };

    ghost inverse = { λ n. record { value = n } };
}

impl Member {
    /// The last member of the greatest circuit.
    pub const LAST: u8 = 15;

    /// The member of this number; `None` outside 1 to 15.
    pub fn new(value: u8) -> Option<Member>
        ensures some { IsSome result ↔ ((1 ≤ value) × (value ≤ most_members)) }
        ensures value { IfSome result (λ m. m ≡ value) }
    {
        if 1 <= value && value <= Member::LAST {
            Some(Member { value })
        } else {
            None
        }
    }

    /// Its number.
    pub fn get(self) -> u8
        ensures value { result ≡ self }
        ensures low { 1 ≤ result }
        ensures high { result ≤ most_members }
    {
        self.value
    }
}
