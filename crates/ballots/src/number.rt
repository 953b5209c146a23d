//! The numbers that name the tapes of a circuit.

ghost use Rattle.std.specs.Prelude.{◌≡◌, ◌≤◌, IsSome, IfSome, ◌↔◌};
ghost use Rattle.protocol.specs.Limits.{last_number};

use std::marker::Model;

/// A circuit number, 1 to 999,999. Clauses see it as a number.
#[derive(Clone, Copy, PartialEq, Eq)]
pub struct Number {
    value: u32,
}

impl Model for Number {
    ghost use Rattle.std.specs.Prelude.{ℕ, ◌≤◌};
    ghost use Rattle.protocol.specs.Limits.{last_number};

    ghost Value = { ℕ };

    ghost view = { λ m. m.value };

    ghost invariant = { λ m. (1 ≤ m.value) × (m.value ≤ last_number) };

    ghost inverse = { λ n. record { value = n } };
}

impl Number {
    pub const LAST: u32 = 999_999;

    /// The circuit number of this value; `None` outside 1 to 999,999.
    pub fn new(value: u32) -> Option<Number>
        ensures some { IsSome result ↔ ((1 ≤ value) × (value ≤ last_number)) }
        ensures value { IfSome result (λ n. n ≡ value) }
    {
        if 1 <= value && value <= Number::LAST {
            Some(Number { value })
        } else {
            None
        }
    }

    /// Its value.
    pub fn get(self) -> u32
        ensures value { result ≡ self }
        ensures low { 1 ≤ result }
        ensures high { result ≤ last_number }
    {
        self.value
    }
}
