//! Names in braces: which bytes they have, and where they end.

ghost use Rattle.std.specs.Prelude.{◌≡◌, ◌<◌, None, length, take, slice_index, IfSome, IsTrue};
ghost use Rattle.std.specs.List.{list_all};
ghost use Rattle.code_table.specs.Names.{is_printed};
ghost use Rattle.text_words.specs.Words.{is_inner, is_in_braces, inner_len, IsUnclosed};

use std::str;

/// Whether the byte prints and is no blank.
fn is_printed(byte: u8) -> bool
    ensures { result ≡ is_printed byte }
{
    33 <= byte && byte <= 126
}

/// Whether a name in braces goes on with the byte.
fn is_inner(byte: u8) -> bool
    ensures { result ≡ is_inner byte }
{
    is_printed(byte) && byte != b'}'
}

/// How many bytes of a name, behind its first, the text begins with.
fn inner_len(text: &[u8]) -> usize
    ensures { result ≡ inner_len text.now }
{
    for (i, byte) in text.iter().enumerate() {
        if !is_inner(*byte) {
            return i;
        }
    }
    text.len()
}

/// How long the name is that begins behind an open brace, where that is closed.
pub(crate) fn name_len(behind: &[u8]) -> Option<usize>
    ensures within { IfSome result (λ len. len < length behind.now) }
    ensures name { IfSome result (λ len. IsTrue (is_in_braces (take len behind.now))) }
    ensures closed { IfSome result (λ len. slice_index behind.now len ≡ 125) }
    ensures none { result ≡ None → IsUnclosed behind.now }
{
    match behind {
        [] => None,
        [first, inner @ ..] => {
            let len = inner_len(inner);
            if is_printed(*first) && len < inner.len() && inner[len] == b'}' {
                Some(len + 1)
            } else {
                None
            }
        }
    }
}

/// Whether each byte may stand in a name behind its first.
fn all_inner(text: &[u8]) -> bool
    ensures { result ≡ list_all is_inner text.now }
{
    text.iter().all(|byte| is_inner(*byte))
}

/// Whether a name may stand in braces.
pub(crate) fn is_in_braces(name: &[u8]) -> bool
    ensures { result ≡ is_in_braces name.now }
{
    match name {
        [] => false,
        [first, ..] => is_printed(*first) && all_inner(&name[1..]),
    }
}

/// The text of a name in braces.
#[tactic(auto, using(crate::proofs::Naming::in_braces_utf8))]
pub(crate) fn text_of(name: &[u8]) -> &str
    requires { IsTrue (is_in_braces name.now) }
    ensures { result.now ≡ name.now }
{
    match str::from_utf8(name) {
        Ok(text) => text,
        Err(_) => unreachable!(),
    }
}
