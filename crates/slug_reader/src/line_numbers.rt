//! Numbers of lines.

ghost use Rattle.std.specs.Prelude.{◌≡◌};
ghost use Rattle.code_table.specs.Tables.{mean};
ghost use Rattle.slug_reader.specs.Lines.{line_number};
ghost use Rattle.slug_reader.specs.Meanings.{is_elevate, selected_by};

use crate::codes::is_elevate;
use code_table::{Case, CodeTable};
use tape_frames::Tape;

/// What a frame does to the numbers and the meanings of those after it.
#[derive(Clone, Copy)]
struct Effect {
    /// The line is sent to be cast.
    cuts: bool,
    /// The case that it selects.
    selects: Option<Case>,
}

/// What the frame does where this case holds.
fn effect_of(table: &CodeTable, case: Case, frame: u8) -> Effect
    ensures cuts { result.cuts ≡ is_elevate (mean table.now case frame) }
    ensures selects { result.selects ≡ selected_by (mean table.now) frame }
{
    match table.meaning(case, frame) {
        Some(meaning) => Effect {
            cuts: is_elevate(meaning),
            selects: meaning.selects(),
        },
        None => Effect {
            cuts: false,
            selects: None,
        },
    }
}

/// The number of the line that a position of a tape stands in: one more than the elevate codes before it.
/// It takes no memory.
pub fn line_at(table: &CodeTable, tape: &Tape, at: u32) -> u32
    ensures { result ≡ line_number (mean table.now) tape.now at }
{
    let mut case = Case::Unshift;
    let mut line = 1;
    for (place, frame) in tape.frames().iter().enumerate() {
        if place >= at as usize {
            break;
        }
        let effect = effect_of(table, case, *frame);
        if effect.cuts {
            line += 1;
        }
        case = effect.selects.unwrap_or(case);
    }
    line
}
