//! Whether a code table can end a line, and whether its matrices fit the measure of a width file.

ghost use Rattle.std.specs.Prelude.{◌≡◌, true, MatchOption, option_copied};
ghost use Rattle.code_table.specs.Tables.{mean};
ghost use Rattle.plant_commands.specs.Fits.{is_elevate, is_fitting, elevates, fits, EndsNoLine, FitsNothing};

use code_table::{Case, CodeTable, Meaning};
use widths::Widths;

/// How many frames there are.
const FRAMES: u8 = 64;

/// Whether the line is sent to be cast by this meaning, if any.
#[tactic(auto, unfolding(crate::specs::Fits::is_elevate))]
fn is_elevate(meaning: Option<&Meaning>) -> bool
    ensures { result ≡ is_elevate (option_copied meaning.entry) }
{
    matches!(meaning, Some(Meaning::Elevate))
}

/// Whether this meaning, if any, is a matrix that is no wider than the measure.
fn is_fitting(widths: &Widths, meaning: Option<&Meaning>) -> bool
    ensures { result ≡ is_fitting widths.now (option_copied meaning.entry) }
{
    match meaning {
        Some(Meaning::Matrix(name)) => match widths.of_name(name) {
            Some(width) => width <= widths.measure(),
            None => false,
        },
        _ => false,
    }
}

/// Whether the frame ends a line in either case.
fn elevates(table: &CodeTable, frame: u8) -> bool
    ensures { result ≡ elevates (mean table.now) frame }
{
    is_elevate(table.meaning(Case::Unshift, frame)) || is_elevate(table.meaning(Case::Shift, frame))
}

/// Whether the frame is a matrix in either case that is no wider than the measure.
fn fits(table: &CodeTable, widths: &Widths, frame: u8) -> bool
    ensures { result ≡ fits (mean table.now) widths.now frame }
{
    is_fitting(widths, table.meaning(Case::Unshift, frame))
        || is_fitting(widths, table.meaning(Case::Shift, frame))
}

/// The first frame that ends a line; `None` where no line can be ended by the table.
pub fn elevate_frame(table: &CodeTable) -> Option<u8>
    ensures { MatchOption result (EndsNoLine (mean table.now)) (λ frame. elevates (mean table.now) frame ≡ true) }
{
    for frame in 0..FRAMES {
        if elevates(table, frame) {
            return Some(frame);
        }
    }
    None
}

/// The first frame that is a matrix which fits the measure; `None` where no word fits.
pub fn fitting_frame(table: &CodeTable, widths: &Widths) -> Option<u8>
    ensures { MatchOption result (FitsNothing (mean table.now) widths.now) (λ frame. fits (mean table.now) widths.now frame ≡ true) }
{
    for frame in 0..FRAMES {
        if fits(table, widths, frame) {
            return Some(frame);
        }
    }
    None
}
