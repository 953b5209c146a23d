//! What a meaning does to the line that is assembled.

ghost use Rattle.std.specs.Prelude.{◌≡◌, Some};
ghost use Rattle.slug_reader.specs.Meanings.{rail_of, quad_of, is_elevate, item_of};
ghost use Rattle.line_fit.specs.Pending.{cause_by};

use crate::sizes::Sizes;
use code_table::Meaning;
use line_check::Cause;
use slug_reader::{Item, Quad, Rail};

/// The rail that a rail code selects.
pub(crate) fn rail_of(meaning: &Meaning) -> Option<Rail>
    ensures { result ≡ rail_of (Some meaning.now) }
{
    match meaning {
        Meaning::Upper => Some(Rail::Upper),
        Meaning::Lower => Some(Rail::Lower),
        _ => None,
    }
}

/// The quad that a quad code asks for its line.
pub(crate) fn quad_of(meaning: &Meaning) -> Option<Quad>
    ensures { result ≡ quad_of (Some meaning.now) }
{
    match meaning {
        Meaning::QuadLeft => Some(Quad::Left),
        Meaning::QuadCenter => Some(Quad::Center),
        Meaning::QuadRight => Some(Quad::Right),
        _ => None,
    }
}

/// Whether the line is sent to be cast.
pub(crate) fn is_elevate(meaning: &Meaning) -> bool
    ensures { result ≡ is_elevate (Some meaning.now) }
{
    matches!(meaning, Meaning::Elevate)
}

/// What goes into the line, if anything, where this rail holds.
pub(crate) fn item_of(sizes: &Sizes<'_>, rail: Rail, meaning: &Meaning) -> Option<Item>
    ensures { result ≡ item_of sizes.now rail (Some meaning.now) }
{
    match meaning {
        Meaning::Matrix(name) => match sizes.of_name(name) {
            Some(width) => Some(Item::Matrix {
                name: name.copy(),
                rail,
                width,
            }),
            None => None,
        },
        Meaning::Spaceband => Some(Item::Band),
        Meaning::Thin => Some(Item::Space {
            width: sizes.widths().thin(),
        }),
        Meaning::En => Some(Item::Space {
            width: sizes.widths().en(),
        }),
        Meaning::Em => Some(Item::Space {
            width: sizes.widths().em(),
        }),
        _ => None,
    }
}

/// Why a frame with this meaning cannot be read, of which this goes into the line.
pub(crate) fn cause_of(meaning: &Meaning, item: &Option<Item>) -> Option<Cause>
    ensures { result ≡ cause_by (Some meaning.now) item.now }
{
    match (meaning, item) {
        (Meaning::Matrix(_), None) => Some(Cause::NoWidth),
        _ => None,
    }
}
