//! The ranges of a set of numbers, in the words of the log.

ghost use Rattle.std.specs.Prelude.{◌≡◌, ◌≤◌, ◌+◌, ◌++◌, Some, IfOk, OnOk, string_bytes};
ghost use Rattle.catch_up_log.specs.Ranges.{AreTold, ComesFrom, NamesRanges, end_text, next_text, range_text, ranges_text};

use ballots::Number;
use gone_out::{Numbers, Range};
use std::alloc::{AllocError, Global};
use std::fmt;

/// How many ranges are told at most.
const MOST_RANGES: usize = 20;

/// A range, as `41-60`; of one number, as `97`. Behind it stands the ending, if there is one, as in `41-60.seek`.
#[derive(Clone, Copy)]
struct RangeText<'a> {
    range: Range,
    ending: &'a str,
}

impl<'a> fmt::Display for RangeText<'a> {
    ghost output = { λ r. Some (range_text r.ending.now r.range) };

    fn fmt<W: fmt::Write>(&self, f: &mut fmt::Formatter<W>) -> fmt::Result {
        let (first, last) = (self.range.first.get(), self.range.last.get());
        let ending = self.ending;
        if first == last {
            write!(f, "{first}{ending}")
        } else {
            write!(f, "{first}-{last}{ending}")
        }
    }
}

/// The ranges of a set that are told, and the one behind them, if there is one.
#[derive(Drop)]
struct ToldRanges {
    ranges: Vec<Range>,
    next: Option<Range>,
}

/// The first range of numbers from this one on, if there is such a number.
fn range_from(numbers: &Numbers, start: u32) -> Option<Range>
    requires { 1 ≤ start }
    ensures { ComesFrom numbers.now start result }
{
    numbers.range_from(Number::new(start)?)
}

/// The first range of numbers behind one.
fn range_behind(numbers: &Numbers, range: &Range) -> Option<Range>
    ensures { ComesFrom numbers.now (range.now.last + 1) result }
{
    range_from(numbers, range.last.get() + 1)
}

/// The ranges of a set that are told.
fn told_of(alloc: Global, numbers: &Numbers) -> Result<ToldRanges, AllocError>
    ensures { IfOk result (λ t. AreTold numbers.now t.ranges.items t.next) }
{
    let mut ranges = Vec::new(alloc);
    let mut next = range_from(numbers, 1);
    for _ in 0..MOST_RANGES {
        let Some(range) = next else {
            break;
        };
        next = range_behind(numbers, &range);
        ranges.push(range)?;
    }
    Ok(ToldRanges { ranges, next })
}

/// Puts a range behind a text.
fn push_range(text: &mut String, range: &Range, ending: &str) -> Result<(), AllocError>
    ensures { OnOk result (string_bytes text.new ≡ string_bytes text.old ++ range_text ending.now range.now) }
{
    let range = RangeText {
        range: *range,
        ending,
    };
    write!(text, "{range}")
}

/// Puts a range behind others.
fn push_next(text: &mut String, range: &Range, ending: &str) -> Result<(), AllocError>
    ensures { OnOk result (string_bytes text.new ≡ string_bytes text.old ++ next_text ending.now range.now) }
{
    let range = RangeText {
        range: *range,
        ending,
    };
    write!(text, ", {range}")
}

/// Ranges with a comma between two, each with this ending.
fn ranges_text(alloc: Global, ranges: &[Range], ending: &str) -> Result<String, AllocError>
    ensures { IfOk result (λ t. string_bytes t ≡ ranges_text ending.now ranges.now) }
{
    let mut text = String::new(alloc);
    let Some((first, rest)) = ranges.split_first() else {
        return Ok(text);
    };
    push_range(&mut text, first, ending)?;
    for range in rest {
        push_next(&mut text, range, ending)?;
    }
    Ok(text)
}

/// The first ranges of the set, each with this ending and a comma between two, 20 at most, and then `, ..` where there are more.
pub(crate) fn text_of(alloc: Global, numbers: &Numbers, ending: &str) -> Result<String, AllocError>
    ensures { IfOk result (λ t. NamesRanges ending.now numbers.now (string_bytes t)) }
{
    let told = told_of(alloc, numbers)?;
    let mut text = ranges_text(alloc, told.ranges.as_slice(), ending)?;
    if told.next.is_some() {
        text.push_str(", ..")?;
    }
    Ok(text)
}
