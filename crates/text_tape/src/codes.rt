//! The least frames of a code table: of a meaning, and of the codes that select a case.

ghost use Rattle.std.specs.Prelude.{◌≡◌};
ghost use Rattle.code_table.specs.Tables.{mean};
ghost use Rattle.text_tape.specs.Codes.{kind_of, name_in, is_same, is_meant, is_case, frame_of, turn_to};
ghost use Rattle.slug_reader.specs.Meanings.{selected_by};

use code_table::{Case, CodeTable, Meaning};

/// Which of the meanings it is, all matrices being one.
fn kind_of(meaning: &Meaning) -> u8
    ensures { result ≡ kind_of meaning.now }
{
    match meaning {
        Meaning::Matrix(_) => 0,
        Meaning::Shift => 1,
        Meaning::Unshift => 2,
        Meaning::Elevate => 3,
        Meaning::Return => 4,
        Meaning::Spaceband => 5,
        Meaning::Thin => 6,
        Meaning::En => 7,
        Meaning::Em => 8,
        Meaning::Upper => 9,
        Meaning::Lower => 10,
        Meaning::QuadLeft => 11,
        Meaning::QuadCenter => 12,
        Meaning::QuadRight => 13,
        Meaning::Ignore => 14,
    }
}

/// The name of a matrix.
fn name_in(meaning: &Meaning) -> &[u8]
    ensures { result.now ≡ name_in meaning.now }
{
    match meaning {
        Meaning::Matrix(name) => name.as_bytes(),
        _ => b"",
    }
}

/// Whether the two are the same.
#[tactic(auto, unfolding(crate::specs::Codes::is_same))]
fn is_same(a: &Meaning, b: &Meaning) -> bool
    ensures { result ≡ is_same a.now b.now }
{
    kind_of(a) == kind_of(b) && name_in(a) == name_in(b)
}

/// Whether the frame has this meaning in the case.
fn is_meant(table: &CodeTable, case: Case, meaning: &Meaning, frame: u8) -> bool
    ensures { result ≡ is_meant meaning.now (mean table.now case frame) }
{
    match table.meaning(case, frame) {
        Some(other) => is_same(meaning, other),
        None => false,
    }
}

/// The case that a frame selects for those after it.
pub(crate) fn selected_by(table: &CodeTable, frame: u8) -> Option<Case>
    ensures { result ≡ selected_by (mean table.now) frame }
{
    table.meaning(Case::Unshift, frame)?.selects()
}

/// Whether the frame selects the case.
fn is_turn(table: &CodeTable, case: Case, frame: u8) -> bool
    ensures { result ≡ is_case case (selected_by (mean table.now) frame) }
{
    match (case, selected_by(table, frame)) {
        (Case::Unshift, Some(Case::Unshift)) | (Case::Shift, Some(Case::Shift)) => true,
        _ => false,
    }
}

/// The least frame with the meaning in the case.
pub(crate) fn frame_of(table: &CodeTable, case: Case, meaning: &Meaning) -> Option<u8>
    ensures { result ≡ frame_of (mean table.now) case meaning.now }
{
    for frame in 0..64u8 {
        if is_meant(table, case, meaning, frame) {
            return Some(frame);
        }
    }
    None
}

/// The least frame that selects the case.
pub(crate) fn turn_to(table: &CodeTable, case: Case) -> Option<u8>
    ensures { result ≡ turn_to (mean table.now) case }
{
    for turn in 0..64u8 {
        if is_turn(table, case, turn) {
            return Some(turn);
        }
    }
    None
}
