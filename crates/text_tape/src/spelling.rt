//! Tapes spelled as texts.

ghost use Rattle.std.specs.Prelude.{◌≡◌, [], ◌++◌, suc, IfOk, OnOk, option_copied};
ghost use Rattle.tape_frames.specs.Frames.{AreFrames};
ghost use Rattle.code_table.specs.Tables.{mean};
ghost use Rattle.slug_reader.specs.Meanings.{case_at};
ghost use Rattle.text_tape.specs.Punching.{IsPunched};
ghost use Rattle.text_words.specs.Writing.{word_text};
ghost use Rattle.text_tape.specs.Spelling.{is_turn_of, is_added, is_worded, is_pair, is_behind_unsaid, IsPlace, word_at, spelled};

use crate::adding::{Added, frames_of};
use crate::codes::selected_by;
use crate::index::Codes;
use code_table::{Case, CodeTable, Meaning};
use std::alloc::{AllocError, Global};
use tape_frames::Tape;
use text_words::{has_word, put_frame, put_meaning};

/// A place of a tape, and the case that holds there.
#[derive(Clone, Copy)]
struct TapePlace<'a> {
    frames: &'a [u8],
    at: usize,
    case: Case,
}

/// Whether both are this frame, or neither is one.
fn is_turn_of(a: Option<u8>, b: Option<u8>) -> bool
    ensures { result ≡ is_turn_of a b }
{
    match (a, b) {
        (None, None) => true,
        (Some(a), Some(b)) => a == b,
        _ => false,
    }
}

/// Whether what a word adds is this frame, behind this case code, if any.
fn is_added(turn: Option<u8>, frame: u8, added: Option<Added>) -> bool
    ensures { result ≡ is_added turn frame added }
{
    match added {
        Some(added) => is_turn_of(turn, added.turn) && added.frame == frame,
        None => false,
    }
}

/// Whether punching a word for what a frame means gives what is wanted: that frame, behind this case code, if any.
fn is_worded(codes: &Codes<'_>, case: Case, meaning: Option<&Meaning>, wanted: Added) -> bool
    ensures { result ≡ is_worded (mean codes.now) case (option_copied meaning.entry) wanted.turn wanted.frame }
{
    match meaning {
        Some(meaning) => {
            has_word(meaning)
                && is_added(wanted.turn, wanted.frame, frames_of(codes, case, meaning))
        }
        None => false,
    }
}

/// Whether a word for what the next frame means gives the frame at this place, a case code, and the next.
#[tactic(auto, unfolding(crate::specs::Spelling::is_pair, slug_reader::specs::Meanings::meaning_at))]
fn is_pair(codes: &Codes<'_>, here: TapePlace<'_>, next: Case) -> bool
    requires here { IsPlace (mean codes.now) here }
    requires next { next ≡ case_at (mean codes.now) here.frames.now (suc here.at) }
    ensures { result ≡ is_pair (mean codes.now) here.entry.frames.now here.entry.at }
{
    if here.at + 1 >= here.frames.len() {
        return false;
    }
    let frame = here.frames[here.at + 1];
    let wanted = Added {
        turn: Some(here.frames[here.at]),
        frame,
    };
    is_worded(codes, here.case, codes.table().meaning(next, frame), wanted)
}

/// Writes the word of the frame at this place.
#[tactic(auto, unfolding(crate::specs::Spelling::is_alone, slug_reader::specs::Meanings::meaning_at))]
fn put_word(
    codes: &Codes<'_>,
    here: TapePlace<'_>,
    behind_unsaid: bool,
    text: &mut Vec<u8>,
) -> Result<(), AllocError>
    requires here { IsPlace (mean codes.now) here }
    requires small { AreFrames here.frames.now }
    requires behind { behind_unsaid ≡ is_behind_unsaid (mean codes.now) here.frames.now here.at }
    ensures { OnOk result (text.new.items ≡ text.old.items ++ word_text (word_at (mean codes.now) here.entry.frames.now here.entry.at)) }
{
    let frame = here.frames[here.at];
    match codes.table().meaning(here.case, frame) {
        None => put_frame(text, frame),
        Some(meaning) => {
            let alone = Added { turn: None, frame };
            if behind_unsaid || is_worded(codes, here.case, Some(meaning), alone) {
                put_meaning(text, meaning)
            } else {
                put_frame(text, frame)
            }
        }
    }
}

/// The text of a tape by these codes.
fn text_of(alloc: Global, codes: &Codes<'_>, tape: &Tape) -> Result<Vec<u8>, AllocError>
    ensures spelled { IfOk result (λ text. text.items ≡ spelled (mean codes.now) tape.now) }
    ensures again { IfOk result (λ text. IsPunched [] (mean codes.now) text.items tape.now) }
{
    let mut text = Vec::new(alloc);
    let mut case = Case::Unshift;
    let mut behind_unsaid = false;
    let frames = tape.frames();
    for (i, frame) in frames.iter().enumerate() {
        let next = selected_by(codes.table(), *frame).unwrap_or(case);
        let here = TapePlace {
            frames,
            at: i,
            case,
        };
        if !behind_unsaid && is_pair(codes, here, next) {
            behind_unsaid = true;
        } else {
            put_word(codes, here, behind_unsaid, &mut text)?;
            behind_unsaid = false;
        }
        case = next;
    }
    Ok(text)
}

/// The text of a tape, which is punched as that tape again: each frame as the word of what it means where punching that
/// gives it, a case code unsaid where the word of the next frame gives both, and any other frame by its number.
pub fn spell(alloc: Global, table: &CodeTable, tape: &Tape) -> Result<Vec<u8>, AllocError>
    ensures spelled { IfOk result (λ text. text.items ≡ spelled (mean table.now) tape.now) }
    ensures again { IfOk result (λ text. IsPunched [] (mean table.now) text.items tape.now) }
{
    let codes = Codes::new(alloc, table)?;
    text_of(alloc, &codes, tape)
}
