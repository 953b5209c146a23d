//! Names as the log shows them.

ghost use Rattle.std.specs.Prelude.{◌≡◌, ◌∷◌, ◌++◌, [], IfOk, OnOk, flat_map, string_bytes};
ghost use Rattle.folders.specs.LogNames.{hex_shown, shown, shown_name};

use std::alloc::{AllocError, Global};

/// Puts a byte behind a text, as two digits in hex with `\x` in front.
fn push_hex(alloc: Global, text: &mut String, byte: u8) -> Result<(), AllocError>
    ensures { OnOk result (string_bytes text.new ≡ string_bytes text.old ++ hex_shown byte) }
{
    let digits = hex::encode(alloc, [byte].as_slice())?;
    text.push_str("\\x")?;
    text.push_str(&digits)
}

/// Puts a byte behind a text, as the log shows it.
fn push_shown(alloc: Global, text: &mut String, byte: u8) -> Result<(), AllocError>
    ensures { OnOk result (string_bytes text.new ≡ string_bytes text.old ++ shown byte) }
{
    match byte {
        b'\n' => text.push_str("\\n"),
        b'\\' => text.push_str("\\\\"),
        b' '..=b'~' => text.push(char::from(byte)),
        _ => push_hex(alloc, text, byte),
    }
}

/// A name as the log shows it: its printable characters of ASCII as they are, a backslash twice, a line feed as `\n`, any other byte as
/// `\x` and two digits in hex. So no byte of it ends a line, or means something to a terminal. Where there is no memory for it,
/// `AllocError`.
pub fn shown_name(alloc: Global, name: &str) -> Result<String, AllocError>
    ensures { IfOk result (λ t. string_bytes t ≡ shown_name name.now) }
{
    let mut text = String::new(alloc);
    for byte in name.as_bytes() {
        push_shown(alloc, &mut text, *byte)?;
    }
    Ok(text)
}
