//! Ligatures: letters that are taken as one matrix.

ghost use Rattle.std.specs.Prelude.{◌≡◌, ◌≤◌, length, max, IfOk, IfSome, IsTrue};
ghost use Rattle.std.specs.List.{list_all};
ghost use Rattle.text_words.specs.Words.{is_in_braces};
ghost use Rattle.text_words.specs.Ligatures.{begun_by, longest_len};

use crate::names::is_in_braces;
use code_table::Name;
use std::alloc::Global;

/// Why there are no ligatures of these names.
#[derive(Clone, Copy, PartialEq, Eq)]
pub enum LigatureError {
    /// One is no name of a matrix, or a brace is in it.
    NoName,
    /// They could not be kept.
    OutOfMemory,
}

/// The ligature with these letters: the name of a matrix, without a brace, since a brace begins or ends a word of the text.
fn ligature(letters: &str) -> Option<Name>
    ensures { IfSome result (λ name. IsTrue (is_in_braces name)) }
{
    let letters = letters.as_bytes();
    if letters.contains(&b'{') || letters.contains(&b'}') || !is_in_braces(letters) {
        return None;
    }
    Name::new(letters)
}

/// The ligatures of a text that names them with commas between them, as `fi,fl,ffi`. Each can also be written in braces.
#[tactic(auto, using(crate::proofs::Beginning::all_push))]
pub fn ligatures_of(alloc: Global, names: &str) -> Result<Vec<Name>, LigatureError>
    ensures { IfOk result (λ names. IsTrue (list_all is_in_braces names.items)) }
{
    let mut ligatures = Vec::new(alloc);
    for letters in names.split(',') {
        let Some(name) = ligature(letters) else {
            return Err(LigatureError::NoName);
        };
        if ligatures.push(name).is_err() {
            return Err(LigatureError::OutOfMemory);
        }
    }
    Ok(ligatures)
}

/// How many bytes of the text the name takes, where the text begins with it.
fn begun_by(text: &[u8], name: &[u8]) -> usize
    ensures { result ≡ begun_by text.now name.now }
{
    let len = name.len();
    if len <= text.len() && &text[..len] == name {
        len
    } else {
        0
    }
}

/// The greater of two lengths.
fn greater(a: usize, b: usize) -> usize
    ensures { result ≡ max a b }
{
    if a < b { b } else { a }
}

/// How many bytes the longest of the ligatures takes of the text; 0 where it begins with none.
pub(crate) fn longest_len(ligatures: &[Name], text: &[u8]) -> usize
    ensures value { result ≡ longest_len ligatures.now text.now }
    ensures within { result ≤ length text.now }
{
    let mut longest = 0;
    for name in ligatures {
        longest = greater(longest, begun_by(text, name.as_bytes()));
    }
    longest
}
