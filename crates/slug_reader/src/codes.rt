//! What a meaning does to the line that is assembled.

ghost use Rattle.std.specs.Prelude.{◌≡◌, Some};
ghost use Rattle.slug_reader.specs.Meanings.{rail_of, quad_of, is_elevate};
ghost use Rattle.slug_reader.specs.Faults.{IsItemOrFlaw};

use crate::fault::Flaw;
use crate::item::{Item, Rail};
use crate::line::Quad;
use code_table::Meaning;
use widths::Widths;

/// The rail that a rail code selects.
pub(crate) fn rail_of(meaning: &Meaning) -> Option<Rail>
    ensures { result ≡ rail_of (Some meaning.now) }
{
    match meaning {
        Meaning::Upper => Some(Rail::Upper),
        Meaning::Lower => Some(Rail::Lower),
        _ => None,
    }
}

/// The quad that a quad code asks for its line.
pub(crate) fn quad_of(meaning: &Meaning) -> Option<Quad>
    ensures { result ≡ quad_of (Some meaning.now) }
{
    match meaning {
        Meaning::QuadLeft => Some(Quad::Left),
        Meaning::QuadCenter => Some(Quad::Center),
        Meaning::QuadRight => Some(Quad::Right),
        _ => None,
    }
}

/// Whether the line is sent to be cast.
pub(crate) fn is_elevate(meaning: &Meaning) -> bool
    ensures { result ≡ is_elevate (Some meaning.now) }
{
    matches!(meaning, Meaning::Elevate)
}

/// What goes into the line, if anything, where this rail holds.
pub(crate) fn item_of(widths: &Widths, rail: Rail, meaning: &Meaning) -> Result<Option<Item>, Flaw>
    ensures { IsItemOrFlaw widths.now rail (Some meaning.now) result }
{
    match meaning {
        Meaning::Matrix(name) => match widths.of_name(name) {
            Some(width) => Ok(Some(Item::Matrix {
                name: name.copy(),
                rail,
                width,
            })),
            None => Err(Flaw::NoWidth),
        },
        Meaning::Spaceband => Ok(Some(Item::Band)),
        Meaning::Thin => Ok(Some(Item::Space {
            width: widths.thin(),
        })),
        Meaning::En => Ok(Some(Item::Space { width: widths.en() })),
        Meaning::Em => Ok(Some(Item::Space { width: widths.em() })),
        _ => Ok(None),
    }
}
