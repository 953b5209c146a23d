//! Words in a document: what would read as markup is written as a reference.

ghost use Rattle.std.specs.Prelude.{◌≡◌, ◌++◌, OnOk};
ghost use Rattle.tape_drawing.specs.Shapes.{escape, escaped};

use std::alloc::AllocError;

/// Adds a byte, or the reference that stands for it.
fn add_byte(text: &mut Vec<u8>, byte: u8) -> Result<(), AllocError>
    ensures { OnOk result (text.new.items ≡ text.old.items ++ escape byte) }
{
    match byte {
        b'&' => text.extend_from_slice(b"&amp;"),
        b'<' => text.extend_from_slice(b"&lt;"),
        b'>' => text.extend_from_slice(b"&gt;"),
        b'"' => text.extend_from_slice(b"&quot;"),
        b'\'' => text.extend_from_slice(b"&#39;"),
        _ => text.extend_from_slice(&[byte]),
    }
}

/// Adds words of printable bytes, so that they read as themselves in SVG and in HTML.
#[tactic(auto, using(crate::proofs::Sequences::flat_more, crate::proofs::Sequences::grown))]
pub fn add_escaped(text: &mut Vec<u8>, words: &[u8]) -> Result<(), AllocError>
    ensures { OnOk result (text.new.items ≡ text.old.items ++ escaped words.now) }
{
    for byte in words {
        add_byte(text, *byte)?;
    }
    Ok(())
}
