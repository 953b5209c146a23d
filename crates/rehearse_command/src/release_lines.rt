//! The line of a release whose tape sets.

ghost use Rattle.std.specs.Prelude.{◌≡◌, OnOk, codes, string_bytes};
ghost use Rattle.release_texts.specs.ReleaseText.{plain_line};

use std::alloc::AllocError;

/// Makes `line` the line of a release whose entry has this text, behind a blank.
pub fn release_line(line: &mut String, number: u32, text: &str) -> Result<(), AllocError>
    ensures { OnOk result (string_bytes line.new ≡ plain_line (codes " ") number text.now) }
{
    let lead = " ";
    line.clear();
    write!(line, "{lead}release {number} {text}\n")
}
