//! What a chart says of one meaning of a combination.

ghost use Rattle.std.specs.Prelude.{◌≡◌, ◌<◌, option_copied, Some};
ghost use Rattle.code_table.specs.Tables.{mean};
ghost use Rattle.tape_drawing.specs.Meanings.{meaning_word};
ghost use Rattle.code_chart.specs.Cells.{span_of, has_word, means_word, twin_at, twin_of, tell};
ghost use Rattle.slug_reader.specs.Positions.{or_else};

use code_table::{Case, CodeTable, Meaning, Name};
use tape_drawing::meaning_word;
use widths::Widths;

/// How wide what a meaning puts into a line is.
#[derive(Clone, Copy, PartialEq, Eq)]
pub enum MeaningSpan {
    /// Nothing goes into the line.
    Nothing,
    /// So many units.
    Units(u16),
    /// A spaceband: from its least width to its greatest.
    Between { least: u16, greatest: u16 },
    /// A matrix without a width.
    Lacking,
}

/// What is told of a meaning.
#[derive(Clone, Copy, PartialEq, Eq)]
pub struct MeaningNote {
    /// How wide it is.
    pub span: MeaningSpan,
    /// The first other frame with the same meaning, in either case.
    pub twin: Option<u8>,
}

/// The span of a matrix.
fn matrix_span(widths: &Widths, name: &Name) -> MeaningSpan
    ensures { result ≡ span_of widths.now (Meaning.Matrix name.now) }
{
    match widths.of_name(name) {
        Some(width) => MeaningSpan::Units(width),
        None => MeaningSpan::Lacking,
    }
}

/// The span of a meaning.
fn span_of(widths: &Widths, meaning: &Meaning) -> MeaningSpan
    ensures { result ≡ span_of widths.now meaning.now }
{
    match meaning {
        Meaning::Matrix(name) => matrix_span(widths, name),
        Meaning::Spaceband => MeaningSpan::Between {
            least: widths.band_min(),
            greatest: widths.band_max(),
        },
        Meaning::Thin => MeaningSpan::Units(widths.thin()),
        Meaning::En => MeaningSpan::Units(widths.en()),
        Meaning::Em => MeaningSpan::Units(widths.em()),
        _ => MeaningSpan::Nothing,
    }
}

/// Whether a meaning has this word in the table.
fn has_word(meaning: Option<&Meaning>, word: &[u8]) -> bool
    ensures { result ≡ has_word (option_copied meaning.entry) word.now }
{
    match meaning {
        Some(other) => meaning_word(Some(other)) == word,
        None => false,
    }
}

/// Whether a frame has a meaning with this word, in either case.
fn means_word(table: &CodeTable, frame: u8, word: &[u8]) -> bool
    ensures { result ≡ means_word (mean table.now) word.now frame }
{
    has_word(table.meaning(Case::Unshift, frame), word)
        || has_word(table.meaning(Case::Shift, frame), word)
}

/// A frame, where it is another and has a meaning with this word.
fn twin_at(table: &CodeTable, frame: u8, word: &[u8], other: u8) -> Option<u8>
    ensures { result ≡ twin_at (mean table.now) frame word.now other }
{
    if other == frame {
        None
    } else if means_word(table, other, word) {
        Some(other)
    } else {
        None
    }
}

/// The earlier of two: the later where there is none before it.
fn earlier(twin: Option<u8>, later: Option<u8>) -> Option<u8>
    ensures { result ≡ or_else twin later }
{
    match twin {
        Some(frame) => Some(frame),
        None => later,
    }
}

/// The first other frame with this word.
fn twin_of(table: &CodeTable, frame: u8, word: &[u8]) -> Option<u8>
    ensures { result ≡ twin_of (mean table.now) frame word.now }
{
    let mut twin = None;
    for other in 0..64u8 {
        twin = earlier(twin, twin_at(table, frame, word, other));
    }
    twin
}

/// Tells of a meaning that a frame has how wide it is, and which other frame has it too.
pub fn tell(table: &CodeTable, widths: &Widths, frame: u8, meaning: &Meaning) -> MeaningNote
    ensures { result ≡ tell widths.now (mean table.now) frame meaning.now }
{
    MeaningNote {
        span: span_of(widths, meaning),
        twin: twin_of(table, frame, meaning_word(Some(meaning))),
    }
}
