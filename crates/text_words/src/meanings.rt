//! What a byte says by itself, and what a name in braces says.

ghost use Rattle.std.specs.Prelude.{◌≡◌, IsTrue};
ghost use Rattle.code_table.specs.Texts.{function_of, matrix_of, meaning_of};
ghost use Rattle.text_words.specs.Ligatures.{matrix_word};
ghost use Rattle.text_words.specs.Words.{byte_word, is_digit, frame_named, named_word, is_in_braces};

use crate::names::text_of;
use crate::word::Word;
use code_table::{Meaning, Name};

/// The matrix of this name, where a matrix may have it.
#[tactic(auto, unfolding(code_table::specs::Texts::matrix_of))]
fn matrix_of(name: &[u8]) -> Option<Meaning>
    ensures { result ≡ matrix_of name.now }
{
    let name = Name::new(name)?;
    Some(Meaning::Matrix(name))
}

/// The matrix of this name, as a word.
pub(crate) fn matrix_word(name: &[u8]) -> Option<Word>
    ensures { result ≡ matrix_word name.now }
{
    Some(Word::Means(matrix_of(name)?))
}

/// What a byte says by itself.
pub(crate) fn byte_word(byte: u8) -> Option<Word>
    ensures { result ≡ byte_word byte }
{
    match byte {
        b'\n' => Some(Word::Means(Meaning::Elevate)),
        b'\r' => Some(Word::Means(Meaning::Return)),
        b' ' => Some(Word::Means(Meaning::Spaceband)),
        b'{' => None,
        _ => Some(Word::Means(matrix_of(&[byte])?)),
    }
}

/// Whether the byte is a decimal digit.
fn is_digit(byte: u8) -> bool
    ensures { result ≡ is_digit byte }
{
    48 <= byte && byte <= 57
}

/// The frame that a name in braces gives by its number.
fn frame_named(name: &[u8]) -> Option<u8>
    ensures { result ≡ frame_named name.now }
{
    match name {
        [b'@', unit] if is_digit(*unit) => Some(*unit - 48),
        [b'@', ten, unit] if 49 <= *ten && *ten <= 57 && is_digit(*unit) => {
            let frame = 10 * (*ten - 48) + (*unit - 48);
            if frame <= 63 { Some(frame) } else { None }
        }
        _ => None,
    }
}

/// The function with this name.
#[tactic(auto, unfolding(code_table::specs::Texts::function_of))]
fn function_of(text: &str) -> Option<Meaning>
    ensures { result ≡ function_of text.now }
{
    match text {
        "@shift" => Some(Meaning::Shift),
        "@unshift" => Some(Meaning::Unshift),
        "@elevate" => Some(Meaning::Elevate),
        "@return" => Some(Meaning::Return),
        "@spaceband" => Some(Meaning::Spaceband),
        "@thin" => Some(Meaning::Thin),
        "@en" => Some(Meaning::En),
        "@em" => Some(Meaning::Em),
        "@upper" => Some(Meaning::Upper),
        "@lower" => Some(Meaning::Lower),
        "@quadleft" => Some(Meaning::QuadLeft),
        "@quadcenter" => Some(Meaning::QuadCenter),
        "@quadright" => Some(Meaning::QuadRight),
        "@ignore" => Some(Meaning::Ignore),
        _ => None,
    }
}

/// What a name in braces means in a code table.
#[tactic(auto, unfolding(code_table::specs::Texts::meaning_of))]
fn meaning_of(name: &[u8]) -> Option<Meaning>
    requires { IsTrue (is_in_braces name.now) }
    ensures { result ≡ meaning_of name.now }
{
    match function_of(text_of(name)) {
        Some(function) => Some(function),
        None => matrix_of(name),
    }
}

/// What a name in braces says.
#[tactic(auto, unfolding(crate::specs::Words::named_word))]
pub(crate) fn named_word(name: &[u8]) -> Option<Word>
    requires { IsTrue (is_in_braces name.now) }
    ensures { result ≡ named_word name.now }
{
    match frame_named(name) {
        Some(frame) => Some(Word::Frame(frame)),
        None => Some(Word::Means(meaning_of(name)?)),
    }
}
