//! How wide a line can be.

ghost use Rattle.std.specs.Prelude.{◌≡◌, ◌≤◌, length};
ghost use Rattle.tape_frames.specs.Frames.{most_frames};
ghost use Rattle.line_check.specs.Slugs.{least_width, greatest_width};

use line_check::{Tally, tally_of};
use slug_reader::Item;
use widths::Widths;

/// The least and the greatest width of a line.
#[derive(Clone, Copy)]
pub(crate) struct LineSpan {
    pub least: u32,
    pub greatest: u32,
}

/// The widths of a line with its bands at their least, and at their greatest.
pub(crate) fn span_of(items: &[Item], widths: &Widths) -> LineSpan
    requires { length items.now ≤ most_frames }
    ensures least { result.least ≡ least_width widths.now items.now }
    ensures greatest { result.greatest ≡ greatest_width widths.now items.now }
{
    let Tally { fixed, bands } = tally_of(items);
    LineSpan {
        least: fixed + bands * u32::from(widths.band_min()),
        greatest: fixed + bands * u32::from(widths.band_max()),
    }
}
