//! Places of a text.

ghost use Rattle.std.specs.Prelude.{◌≡◌};
ghost use Rattle.text_words.specs.Places.{line_behind, column_behind};

/// A place of a text, as a person counts it.
#[derive(Clone, Copy)]
pub struct TextPlace {
    /// The line, from 1.
    pub line: usize,
    /// The column, in bytes from 1.
    pub column: usize,
}

/// The place behind this prefix of a text.
pub fn place_behind(prefix: &[u8]) -> TextPlace
    ensures line { result.line ≡ line_behind prefix.now }
    ensures column { result.column ≡ column_behind prefix.now }
{
    let mut line = 1;
    let mut column = 1;
    for byte in prefix {
        if *byte == b'\n' {
            line += 1;
            column = 1;
        } else {
            column += 1;
        }
    }
    TextPlace { line, column }
}
