//! What went out at the plant that came before, as text for people.

use ballots::Number;
use gone_out::{Numbers, Origin, Range};
use std::alloc::{AllocError, Global};

/// More ranges than there are numbers at every second place.
const MOST_RANGES: u32 = 500_000;

/// The first range of numbers from this one on, if there is such a number.
fn range_from(numbers: &Numbers, start: u32) -> Option<Range> {
    numbers.range_from(Number::new(start)?)
}

/// Puts down whose numbers they are.
fn put_head(text: &mut String, own: &Origin, numbers: &Numbers) -> Result<(), AllocError> {
    let (circuit, member) = (own.circuit, own.member.get());
    let count = numbers.len();
    write!(
        text,
        "These {count} numbers of circuit {circuit} went out at its member {member}, or were withdrawn, as its record says.\n"
    )?;
    text.push_str(
        "A number of the new circuit is another story, even where it is one of these.\n\n",
    )
}

/// Puts down a range on a line, as `41-60`; of one number, as `97`.
fn put_range(text: &mut String, range: &Range) -> Result<(), AllocError> {
    let (first, last) = (range.first.get(), range.last.get());
    if first == last {
        write!(text, "{first}\n")
    } else {
        write!(text, "{first}-{last}\n")
    }
}

/// The numbers that went out at a plant, by their ranges, a line each.
pub fn before_text(alloc: Global, own: &Origin, numbers: &Numbers) -> Result<String, AllocError> {
    let mut text = String::new(alloc);
    put_head(&mut text, own, numbers)?;
    let mut next = range_from(numbers, 1);
    for _ in 0..MOST_RANGES {
        let Some(range) = next else {
            break;
        };
        put_range(&mut text, &range)?;
        next = range_from(numbers, range.last.get() + 1);
    }
    Ok(text)
}
