//! The first piece of a text.

ghost use Rattle.std.specs.Prelude.{◌≡◌, ◌≤◌, None, length, IfSome};
ghost use Rattle.text_words.specs.Ligatures.{longest_len, IsFirstPiece};
ghost use Rattle.text_words.specs.Words.{BeginsWith, HasNoEnd};

use crate::ligatures::longest_len;
use crate::meanings::{byte_word, matrix_word, named_word};
use crate::names::name_len;
use crate::word::Word;
use code_table::Name;

/// A piece of a text: one byte, a name with its braces, or the letters of a ligature.
#[derive(Drop)]
pub struct TextPiece {
    /// How many bytes it has.
    pub len: usize,
    /// The word that it says, if any.
    pub said: Option<Word>,
}

/// The first piece of a text that is not empty; `None` where it begins with a brace that is not closed before the next byte
/// that does not print.
fn piece_at(text: &[u8]) -> Option<TextPiece>
    requires { 1 ≤ length text.now }
    ensures piece { IfSome result (λ piece. BeginsWith text.now piece.len piece.said) }
    ensures none { result ≡ None → HasNoEnd text.now }
{
    let first = text[0];
    if first == b'{' {
        let behind = &text[1..];
        let len = name_len(behind)?;
        Some(TextPiece {
            len: len + 2,
            said: named_word(&behind[..len]),
        })
    } else {
        Some(TextPiece {
            len: 1,
            said: byte_word(first),
        })
    }
}

/// The first piece of a text that is not empty, where the letters of a ligature are one piece: the longest with which the text
/// begins. `None` as where there are no ligatures.
#[tactic(auto, using(crate::proofs::Beginning::apart_first))]
pub fn first_piece(ligatures: &[Name], text: &[u8]) -> Option<TextPiece>
    requires { 1 ≤ length text.now }
    ensures first { IfSome result (λ piece. IsFirstPiece ligatures.now text.now piece.len piece.said) }
    ensures none { result ≡ None → HasNoEnd text.now × (longest_len ligatures.now text.now ≡ 0) }
{
    let len = longest_len(ligatures, text);
    if len == 0 {
        return piece_at(text);
    }
    Some(TextPiece {
        len,
        said: matrix_word(&text[..len]),
    })
}
