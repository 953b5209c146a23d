//! The numbers whose searches are under way.

ghost use Rattle.std.specs.Prelude.{◌≡◌, ◌<◌, ◌++◌, ◌∷◌, [], length};
ghost use Rattle.by_hand.specs.Lists.{is_among, without};

use arrayvec::ArrayVec;

/// How many searches are under way at most.
pub(crate) const MOST: usize = 8;

/// Circuit numbers, as many as may be searched at a time.
pub(crate) type Flying = ArrayVec<u32, MOST>;

/// Whether a number is among these.
pub(crate) fn is_among(numbers: &[u32], number: u32) -> bool
    ensures { result ≡ is_among numbers.now number }
{
    numbers.iter().any(|each| *each == number)
}

/// Adds a number, unless it is this one.
fn add_other(numbers: &mut Flying, each: u32, number: u32)
    requires { length numbers.old.items < 8 }
    ensures { numbers.new.items ≡ numbers.old.items ++ without number (each ∷ []) }
{
    if each != number {
        numbers.push(each);
    }
}

/// These numbers, except this one.
pub(crate) fn without(numbers: &Flying, number: u32) -> Flying
    ensures { result.items ≡ without number numbers.now.items }
{
    let mut rest = ArrayVec::new();
    for each in numbers.as_slice() {
        add_other(&mut rest, *each, number);
    }
    rest
}
