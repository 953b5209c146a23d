//! Up to 64 circuit numbers: those of one recall, or those that wait for one member.

ghost use Rattle.std.specs.Prelude.{◌≡◌, ◌≤◌, ◌<◌, ◌++◌, ◌∷◌, [], length, None, option_to_list};
ghost use Rattle.healing.specs.Lists.{is_among};
ghost use Rattle.catch_up.specs.Values.{AreNumbers, without};

use arrayvec::ArrayVec;
use ballots::Number;

/// The most numbers that are recalled at a time, and that wait for one member.
pub(crate) const MOST: usize = 64;

/// Circuit numbers, at most as many as one recall has.
pub(crate) type Values = ArrayVec<u32, MOST>;

/// A copy of these numbers.
pub(crate) fn copied(numbers: &[u32]) -> Values
    requires { length numbers.now ≤ 64 }
    ensures { result.items ≡ numbers.now }
{
    let mut copy = ArrayVec::new();
    for number in numbers {
        copy.push(*number);
    }
    copy
}

/// Whether a number is among these.
pub(crate) fn is_among(numbers: &[u32], number: u32) -> bool
    ensures { result ≡ is_among numbers.now number }
{
    numbers.iter().any(|each| *each == number)
}

/// Adds a number, unless it is this one.
fn add_other(numbers: &mut Values, each: u32, number: u32)
    requires { length numbers.old.items < 64 }
    ensures { numbers.new.items ≡ numbers.old.items ++ without number (each ∷ []) }
{
    if each != number {
        numbers.push(each);
    }
}

/// These numbers, except this one.
pub(crate) fn without(numbers: &Values, number: u32) -> Values
    ensures { result.items ≡ without number numbers.now.items }
{
    let mut rest = ArrayVec::new();
    for each in numbers.as_slice() {
        add_other(&mut rest, *each, number);
    }
    rest
}

/// Takes the first number, if there is one.
pub(crate) fn take_first(numbers: &mut Values) -> Option<Number>
    requires { AreNumbers numbers.old.items }
    ensures first { numbers.old.items ≡ option_to_list result ++ numbers.new.items }
    ensures none { result ≡ None → numbers.old.items ≡ [] }
{
    let value = numbers.pop_at(0)?;
    Number::new(value)
}
