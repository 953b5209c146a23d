//! How the words of a text are written.

ghost use Rattle.std.specs.Prelude.{◌≡◌, ◌++◌, OnOk};
ghost use Rattle.text_words.specs.Writing.{braced_text, frame_text, matrix_text, meaning_text, has_word};

use crate::names::is_in_braces;
use code_table::Meaning;
use std::alloc::AllocError;

/// Writes a name in braces.
fn put_braced(text: &mut Vec<u8>, name: &[u8]) -> Result<(), AllocError>
    ensures { OnOk result (text.new.items ≡ text.old.items ++ braced_text name.now) }
{
    text.push(b'{')?;
    text.extend_from_slice(name)?;
    text.push(b'}')?;
    Ok(())
}

/// Writes a frame by its number.
pub fn put_frame(text: &mut Vec<u8>, frame: u8) -> Result<(), AllocError>
    ensures { OnOk result (text.new.items ≡ text.old.items ++ frame_text frame) }
{
    if frame < 10 {
        put_braced(text, &[b'@', 48 + frame])
    } else {
        put_braced(text, &[b'@', 48 + frame / 10, 48 + frame % 10])
    }
}

/// Writes a matrix.
fn put_matrix(text: &mut Vec<u8>, name: &[u8]) -> Result<(), AllocError>
    ensures { OnOk result (text.new.items ≡ text.old.items ++ matrix_text name.now) }
{
    match name {
        [byte] if *byte != b'{' => {
            text.push(*byte)?;
            Ok(())
        }
        _ => put_braced(text, name),
    }
}

/// Writes the word of a meaning.
pub fn put_meaning(text: &mut Vec<u8>, meaning: &Meaning) -> Result<(), AllocError>
    ensures { OnOk result (text.new.items ≡ text.old.items ++ meaning_text meaning.now) }
{
    match meaning {
        Meaning::Matrix(name) => put_matrix(text, name.as_bytes()),
        Meaning::Shift => put_braced(text, b"@shift"),
        Meaning::Unshift => put_braced(text, b"@unshift"),
        Meaning::Elevate => text.extend_from_slice(b"\n"),
        Meaning::Return => put_braced(text, b"@return"),
        Meaning::Spaceband => text.extend_from_slice(b" "),
        Meaning::Thin => put_braced(text, b"@thin"),
        Meaning::En => put_braced(text, b"@en"),
        Meaning::Em => put_braced(text, b"@em"),
        Meaning::Upper => put_braced(text, b"@upper"),
        Meaning::Lower => put_braced(text, b"@lower"),
        Meaning::QuadLeft => put_braced(text, b"@quadleft"),
        Meaning::QuadCenter => put_braced(text, b"@quadcenter"),
        Meaning::QuadRight => put_braced(text, b"@quadright"),
        Meaning::Ignore => put_braced(text, b"@ignore"),
    }
}

/// Whether a meaning has a word: all have but a matrix with a closing brace behind the first byte of its name.
pub fn has_word(meaning: &Meaning) -> bool
    ensures { result ≡ has_word meaning.now }
{
    match meaning {
        Meaning::Matrix(name) => is_in_braces(name.as_bytes()),
        _ => true,
    }
}
