//! The widths of a file, those of most matrices found once.

ghost use Rattle.std.specs.Prelude.{◌≡◌, ◌<◌, [], ◌∷◌, IfOk, IfSome, IsTrue};
ghost use Rattle.code_table.specs.Names.{is_name};
ghost use Rattle.widths.specs.Widths.{width_of};
ghost use Rattle.line_fit.specs.Sizes.{byte_width, byte_widths};

use code_table::Name;
use std::alloc::{AllocError, Global};
use std::marker::Model;
use widths::Widths;

/// How many bytes are looked up: the last that prints is 126.
const BYTES: u8 = 127;

/// Widths, with those of the matrices whose names are one byte at hand. Clauses see the widths.
#[derive(Drop)]
pub(crate) struct Sizes<'a> {
    widths: &'a Widths,
    of_bytes: Vec<Option<u16>>,
}

impl<'a> Model for Sizes<'a> {
    ghost use Rattle.std.specs.Prelude.{◌≡◌};
    ghost use Rattle.widths.specs.Widths.{WidthFile};
    ghost use Rattle.line_fit.specs.Sizes.{byte_widths};

    ghost Value = { WidthFile };

    ghost view = { λ s. s.widths.now };

    ghost invariant = { λ s. s.of_bytes.items ≡ byte_widths s.widths.now };
}

/// The width of the matrix whose name is this byte, where a matrix may have that name.
fn byte_width(widths: &Widths, byte: u8) -> Option<u16>
    ensures { result ≡ byte_width widths.now byte }
{
    match Name::new(&[byte]) {
        Some(name) => widths.of_name(&name),
        None => None,
    }
}

/// The same of all bytes.
fn byte_widths(alloc: Global, widths: &Widths) -> Result<Vec<Option<u16>>, AllocError>
    ensures { IfOk result (λ all. all.items ≡ byte_widths widths.now) }
{
    let mut all = Vec::new(alloc);
    for byte in 0..BYTES {
        all.push(byte_width(widths, byte))?;
    }
    Ok(all)
}

/// The byte of a name that is one byte.
#[tactic(auto, using(crate::proofs::Bytes::byte_few))]
fn byte_of(name: &Name) -> Option<u8>
    ensures few { IfSome result (λ byte. byte < 127) }
    ensures byte { IfSome result (λ byte. name.now ≡ byte ∷ []) }
    ensures named { IsTrue (is_name name.now) }
{
    match name.as_bytes() {
        [byte] => Some(*byte),
        _ => None,
    }
}

impl<'a> Sizes<'a> {
    /// The sizes of these widths.
    pub fn new(alloc: Global, widths: &'a Widths) -> Result<Sizes<'a>, AllocError>
        ensures { IfOk result (λ sizes. sizes ≡ widths.now) }
    {
        Ok(Sizes {
            widths,
            of_bytes: byte_widths(alloc, widths)?,
        })
    }

    /// The widths.
    pub fn widths(&self) -> &Widths
        ensures { result.now ≡ self.now }
    {
        self.widths
    }

    /// Those of the bytes.
    fn of_bytes(&self) -> &[Option<u16>]
        ensures { result.now ≡ byte_widths self.now }
    {
        &self.of_bytes
    }

    /// The width of the matrix with this name.
    #[tactic(auto, using(crate::proofs::Bytes::widths_len, crate::proofs::Bytes::width_at))]
    pub fn of_name(&self, name: &Name) -> Option<u16>
        ensures { result ≡ width_of self.now name.now }
    {
        match byte_of(name) {
            Some(byte) => self.of_bytes()[usize::from(byte)],
            None => self.widths.of_name(name),
        }
    }
}
