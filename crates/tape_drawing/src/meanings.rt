//! What a frame means: in the words of a code table, as a mark, and for the frames after it.

ghost use Rattle.std.specs.Prelude.{◌≡◌, Some, option_copied, unwrap_or};
ghost use Rattle.code_table.specs.Tables.{mean, case_of};
ghost use Rattle.tape_drawing.specs.Meanings.{meaning_word, mark_word, mark_style};

use crate::elements::Style;
use code_table::{Case, CodeTable, Meaning};

/// The word of a meaning as a code table has it: the name of a function, or of a matrix.
fn word_of(meaning: &Meaning) -> &[u8]
    ensures { result.now ≡ meaning_word (Some meaning.now) }
{
    match meaning {
        Meaning::Matrix(name) => name.as_bytes(),
        Meaning::Shift => b"@shift",
        Meaning::Unshift => b"@unshift",
        Meaning::Elevate => b"@elevate",
        Meaning::Return => b"@return",
        Meaning::Spaceband => b"@spaceband",
        Meaning::Thin => b"@thin",
        Meaning::En => b"@en",
        Meaning::Em => b"@em",
        Meaning::Upper => b"@upper",
        Meaning::Lower => b"@lower",
        Meaning::QuadLeft => b"@quadleft",
        Meaning::QuadCenter => b"@quadcenter",
        Meaning::QuadRight => b"@quadright",
        Meaning::Ignore => b"@ignore",
    }
}

/// The same, `?` where a frame means nothing.
pub fn meaning_word(meaning: Option<&Meaning>) -> &[u8]
    ensures { result.now ≡ meaning_word (option_copied meaning.entry) }
{
    match meaning {
        Some(meaning) => word_of(meaning),
        None => b"?",
    }
}

/// The mark of a meaning: the name of a matrix, two letters of a function.
fn mark_of(meaning: &Meaning) -> &[u8]
    ensures { result.now ≡ mark_word (Some meaning.now) }
{
    match meaning {
        Meaning::Matrix(name) => name.as_bytes(),
        Meaning::Shift => b"SH",
        Meaning::Unshift => b"UN",
        Meaning::Elevate => b"EL",
        Meaning::Return => b"RT",
        Meaning::Spaceband => b"SB",
        Meaning::Thin => b"TH",
        Meaning::En => b"EN",
        Meaning::Em => b"EM",
        Meaning::Upper => b"UR",
        Meaning::Lower => b"LR",
        Meaning::QuadLeft => b"QL",
        Meaning::QuadCenter => b"QC",
        Meaning::QuadRight => b"QR",
        Meaning::Ignore => b"IG",
    }
}

/// The same, `?` where a frame means nothing.
pub fn mark_word(meaning: Option<&Meaning>) -> &[u8]
    ensures { result.now ≡ mark_word (option_copied meaning.entry) }
{
    match meaning {
        Some(meaning) => mark_of(meaning),
        None => b"?",
    }
}

/// How the mark looks.
pub fn mark_style(meaning: Option<&Meaning>) -> Style
    ensures { result ≡ mark_style (option_copied meaning.entry) }
{
    match meaning {
        Some(Meaning::Matrix(_)) => Style::Letter,
        Some(_) => Style::Function,
        None => Style::Unknown,
    }
}

/// The case that holds behind a frame.
pub(crate) fn next_case(table: &CodeTable, case: Case, frame: u8) -> Case
    ensures value { result ≡ unwrap_or (case_of (mean table.now case frame)) case }
    ensures alike { case_of (mean table.now case frame) ≡ case_of (mean table.now Case.Unshift frame) }
{
    match table.meaning(case, frame) {
        Some(meaning) => meaning.selects().unwrap_or(case),
        None => case,
    }
}
