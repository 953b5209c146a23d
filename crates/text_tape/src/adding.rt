//! Which frames a word takes.

ghost use Rattle.std.specs.Prelude.{◌≡◌, [], ◌∷◌, ◌++◌, length, OnOk};
ghost use Rattle.code_table.specs.Tables.{mean};
ghost use Rattle.text_tape.specs.Codes.{other_case, adds, added_frames, case_behind};

use crate::codes::selected_by;
use crate::index::Codes;
use code_table::{Case, Meaning};
use std::alloc::AllocError;
use text_words::Word;

/// What a word adds to a tape.
#[derive(Clone, Copy)]
pub(crate) struct Added {
    /// The case code before the frame, where the case that holds has none for the word.
    pub turn: Option<u8>,
    /// The frame of the word.
    pub frame: u8,
}

/// The other case.
fn other_case(case: Case) -> Case
    ensures { result ≡ other_case case }
{
    match case {
        Case::Unshift => Case::Shift,
        Case::Shift => Case::Unshift,
    }
}

/// The frames of a meaning where the case holds.
#[tactic(auto, unfolding(crate::specs::Codes::adds))]
pub(crate) fn frames_of(codes: &Codes<'_>, case: Case, meaning: &Meaning) -> Option<Added>
    ensures { result ≡ adds (mean codes.now) case (Word.Means meaning.now) }
{
    if let Some(frame) = codes.frame_of(case, meaning) {
        return Some(Added { turn: None, frame });
    }
    let other = other_case(case);
    let frame = codes.frame_of(other, meaning)?;
    let turn = codes.turn_to(other)?;
    Some(Added {
        turn: Some(turn),
        frame,
    })
}

/// What a word adds to a tape where the case holds, if it has a code.
#[tactic(auto, unfolding(crate::specs::Codes::adds))]
pub(crate) fn adds(codes: &Codes<'_>, case: Case, word: &Word) -> Option<Added>
    ensures { result ≡ adds (mean codes.now) case word.now }
{
    match word {
        Word::Means(meaning) => frames_of(codes, case, meaning),
        Word::Frame(frame) => Some(Added {
            turn: None,
            frame: *frame,
        }),
    }
}

/// Adds a frame to a tape, and goes over to the case that holds behind it.
pub(crate) fn push_frame(
    codes: &Codes<'_>,
    case: &mut Case,
    frames: &mut Vec<u8>,
    frame: u8,
) -> Result<(), AllocError>
    requires { case.old ≡ case_behind (mean codes.now) frames.old.items }
    ensures frames { OnOk result (frames.new.items ≡ frames.old.items ++ frame ∷ []) }
    ensures case { OnOk result (case.new ≡ case_behind (mean codes.now) frames.new.items) }
{
    frames.push(frame)?;
    *case = selected_by(codes.table(), frame).unwrap_or(*case);
    Ok(())
}

/// Adds the frames of a word.
pub(crate) fn push_added(
    codes: &Codes<'_>,
    case: &mut Case,
    frames: &mut Vec<u8>,
    added: Added,
) -> Result<(), AllocError>
    requires { case.old ≡ case_behind (mean codes.now) frames.old.items }
    ensures frames { OnOk result (frames.new.items ≡ frames.old.items ++ added_frames added) }
    ensures case { OnOk result (case.new ≡ case_behind (mean codes.now) frames.new.items) }
{
    if let Some(turn) = added.turn {
        push_frame(codes, case, frames, turn)?;
    }
    push_frame(codes, case, frames, added.frame)
}

impl Added {
    /// How many frames it is.
    pub fn len(self) -> usize
        ensures { result ≡ length (added_frames self) }
    {
        if self.turn.is_some() { 2 } else { 1 }
    }
}
