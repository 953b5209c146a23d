//! The files that are under way.

ghost use Rattle.std.specs.Prelude.{◌≡◌, ◌<◌, ◌==◌, ◌↔◌, [], IsTrue, IfSome, length, position};
ghost use Rattle.pace.specs.UnderWay.{with_one, without, without_at};

use crate::turns::MOST_UNDER_WAY;
use arrayvec::ArrayVec;
use ballots::Number;
use std::marker::Model;

/// The numbers whose files are under way: asked for, and neither released, found empty nor given up since.
#[derive(Drop)]
pub struct Window {
    numbers: ArrayVec<u32, MOST_UNDER_WAY>,
}

impl Model for Window {
    ghost use Rattle.std.specs.Prelude.{ℕ, List};

    ghost Value = { List ℕ };

    ghost view = { λ w. w.numbers.items };
}

/// The first place of a number.
fn place_of(numbers: &[u32], number: Number) -> Option<usize>
    ensures place { result ≡ position (λ each. each == number) numbers.now }
    ensures within { IfSome result (λ place. place < length numbers.now) }
{
    let wanted = number.get();
    numbers.iter().position(|each| *each == wanted)
}

/// Removes the number at a place, if there is one.
fn remove_at(numbers: &mut ArrayVec<u32, MOST_UNDER_WAY>, place: Option<usize>)
    requires { IfSome place (λ i. i < length numbers.old.items) }
    ensures { numbers.new.items ≡ without_at place numbers.old.items }
{
    if let Some(i) = place {
        numbers.remove(i);
    }
}

impl Window {
    /// None is under way.
    pub fn new() -> Window
        ensures { result ≡ [] }
    {
        Window {
            numbers: ArrayVec::new(),
        }
    }

    /// How many are under way.
    pub fn len(&self) -> usize
        ensures { result ≡ length self.now }
    {
        self.numbers.len()
    }

    /// The numbers that are under way, in the order in which they were asked for.
    pub fn numbers(&self) -> &[u32]
        ensures { result.now ≡ self.now }
    {
        self.numbers.as_slice()
    }

    /// The file of a number is asked for; whether it found a place, as it does where fewer than 16 are under way.
    pub fn add(&mut self, number: Number) -> bool
        ensures room { IsTrue result ↔ (length self.old < 16) }
        ensures put { self.new ≡ with_one result number self.old }
    {
        if self.numbers.is_full() {
            return false;
        }
        self.numbers.push(number.get());
        true
    }

    /// The number was released, or its ballot found nothing, or was given up: its file is no longer under way.
    pub fn leave(&mut self, number: Number)
        ensures { self.new ≡ without number self.old }
    {
        let place = place_of(self.numbers.as_slice(), number);
        remove_at(&mut self.numbers, place);
    }
}
