//! Laws over the grammar. The functions do nothing: their contracts are the laws.

ghost use Rattle.recalls.specs.Recalls.{IsRecall};
ghost use Rattle.recalls.specs.Grammar.{Spells};
ghost use Rattle.recalls.specs.Reading.{recall_at};
ghost use Rattle.recalls.specs.Laws.{FindsWhatIsSpelled, HasOneSpelling, IsNoPacket, LengthsAreGiven, NoPrefix, OnlyThese, ReadsItAgain, SpellsOne};

/// Each recall has exactly one spelling, and nothing else has one.
pub fn one_spelling()
    ensures has { HasOneSpelling Spells IsRecall }
    ensures only { OnlyThese Spells IsRecall }
{}

/// No bytes spell two recalls.
pub fn one_recall()
    ensures { SpellsOne Spells }
{}

/// No spelling is a prefix of another's.
pub fn no_prefix()
    ensures { NoPrefix Spells }
{}

/// A recall's spelling has 13 bytes and four for each number: 17 to 269.
pub fn lengths()
    ensures { LengthsAreGiven }
{}

/// Reading from the front, which says what the first fault is, finds what the grammar says.
pub fn reading()
    ensures again { ReadsItAgain Spells recall_at }
    ensures found { FindsWhatIsSpelled Spells recall_at }
{}

/// What spells a recall is no packet of either version, and is refused as bytes of a bad mark.
pub fn is_no_packet()
    ensures { IsNoPacket Spells }
{}
