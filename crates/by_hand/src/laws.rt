//! Laws over the text. The functions do nothing: their contracts are the laws.

ghost use Rattle.by_hand.specs.Laws.{EachIsNamedOnce, OneText};

/// Each number of the range stands in one line of the text, with what came of it.
pub fn named_once()
    ensures { EachIsNamedOnce }
{}

/// No two texts say what came of a range.
pub fn one_text()
    ensures { OneText }
{}
