//! The numbers of a set as ranges, as an operator is told of them.

ghost use Rattle.std.specs.Prelude.{◌≡◌, ◌+◌, None, true, IfSome};
ghost use Rattle.protocol.specs.Limits.{last_number};
ghost use Rattle.gone_out.specs.Numbers.{has};
ghost use Rattle.gone_out.specs.Ranges.{FoundFrom, NextFrom, IsLastFrom};

use crate::numbers::Numbers;
use ballots::Number;

/// Numbers that follow one another, from the first to the last.
#[derive(Clone, Copy, PartialEq, Eq)]
pub struct Range {
    pub first: Number,
    pub last: Number,
}

/// The number behind one, if there is one.
fn behind(number: Number) -> Option<Number>
    ensures some { IfSome result (λ n. n ≡ number + 1) }
    ensures none { result ≡ None → number ≡ last_number }
{
    Number::new(number.get() + 1)
}

impl Numbers {
    /// The first number from one on that is among them.
    fn next(&self, start: Number) -> Option<Number>
        ensures { NextFrom self.now start result }
    {
        let mut number = start;
        while !self.contains(number) {
            number = behind(number)?;
        }
        Some(number)
    }

    /// The last number of those that follow one another from this one on, which is among them.
    fn last_from(&self, first: Number) -> Number
        requires { has self.now first ≡ true }
        ensures { IsLastFrom self.now first result }
    {
        let mut last = first;
        while let Some(number) = behind(last)
            && self.contains(number)
        {
            last = number;
        }
        last
    }

    /// The first range of numbers from one on; `None` where none of them is as high.
    pub fn range_from(&self, start: Number) -> Option<Range>
        ensures { FoundFrom self.now start result }
    {
        let first = self.next(start)?;
        Some(Range {
            first,
            last: self.last_from(first),
        })
    }
}
