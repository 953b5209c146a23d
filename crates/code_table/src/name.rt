//! The names of matrices.

ghost use Rattle.std.specs.Prelude.{◌≡◌, IsTrue, IsSome, IfSome, ◌↔◌};
ghost use Rattle.std.specs.List.{list_all};
ghost use Rattle.code_table.specs.Names.{is_name, is_printed};

use arrayvec::ArrayVec;
use std::marker::Model;
use std::str;

/// The most bytes that a name has.
const MAX_BYTES: usize = 8;

/// The name of a matrix: 1 to 8 bytes, each 0x21 to 0x7E, the first not `@`. Clauses see the list of its bytes.
#[derive(Drop)]
pub struct Name {
    bytes: ArrayVec<u8, 8>,
}

impl Model for Name {
    ghost use Rattle.std.specs.Prelude.{List, ℕ, IsTrue};
    ghost use Rattle.code_table.specs.Names.{is_name};

    ghost Value = { List ℕ };

    ghost view = { λ n. n.bytes.items };

    ghost invariant = { λ n. IsTrue (is_name n.bytes.items) };

    ghost inverse = { λ xs. record { bytes = record { items = xs } } };
}

/// Whether the byte prints and is no blank.
fn is_printed(byte: u8) -> bool
    ensures { result ≡ is_printed byte }
{
    33 <= byte && byte <= 126
}

/// Whether each byte prints and is no blank.
fn all_printed(text: &[u8]) -> bool
    ensures { result ≡ list_all is_printed text.now }
{
    text.iter().all(|byte| is_printed(*byte))
}

/// Whether a matrix may have this name.
fn is_name(text: &[u8]) -> bool
    ensures { result ≡ is_name text.now }
{
    match text {
        [] => false,
        [first, ..] => *first != b'@' && text.len() <= MAX_BYTES && all_printed(text),
    }
}

impl Name {
    /// The name with these bytes; `None` where it is no name of a matrix.
    pub fn new(bytes: &[u8]) -> Option<Name>
        ensures some { IsSome result ↔ IsTrue (is_name bytes.now) }
        ensures value { IfSome result (λ n. n ≡ bytes.now) }
    {
        if !is_name(bytes) {
            return None;
        }
        match ArrayVec::try_from(bytes) {
            Ok(bytes) => Some(Name { bytes }),
            Err(_) => None,
        }
    }

    /// Its bytes.
    pub fn as_bytes(&self) -> &[u8]
        ensures value { result.now ≡ self.now }
        ensures is_name { IsTrue (is_name self.now) }
    {
        self.bytes.as_slice()
    }

    /// Its text.
    #[tactic(auto, using(crate::proofs::Names::is_name_utf8))]
    pub fn as_str(&self) -> &str
        ensures value { result.now ≡ self.now }
        ensures is_name { IsTrue (is_name self.now) }
    {
        match str::from_utf8(self.bytes.as_slice()) {
            Ok(text) => text,
            Err(_) => unreachable!(),
        }
    }

    /// The same name once more. It takes no memory.
    pub fn copy(&self) -> Name
        ensures { result ≡ self.now }
    {
        match ArrayVec::try_from(self.bytes.as_slice()) {
            Ok(bytes) => Name { bytes },
            Err(_) => unreachable!(),
        }
    }
}
