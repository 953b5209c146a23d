//! Laws over pages and the grammar. The functions do nothing, or call others that do nothing: their contracts are the laws.

ghost use Rattle.recalls.specs.Laws.{FindsWhatIsSpelled, HasOneSpelling, IsNoPacket, NoPrefix, OnlyThese, ReadsItAgain, SpellsOne};
ghost use Rattle.rolls.specs.Rolls.{IsRoll};
ghost use Rattle.rolls.specs.Grammar.{Spells as SpellsRoll};
ghost use Rattle.rolls.specs.Reading.{roll_at};
ghost use Rattle.rolls.specs.Laws.{EachNumberHasItsPlace, EachPlaceHasItsNumber, HearsRecalls, HearsRolls, IsNoRecall, LengthsAreGiven, NoRecallIsOne, NoneIsShort};

/// Each circuit number has one place on one page, and each place has one number.
pub fn pages()
    ensures number { EachNumberHasItsPlace }
    ensures place { EachPlaceHasItsNumber }
{}

/// Each roll has exactly one spelling, and nothing else has one.
pub fn one_spelling()
    ensures has { HasOneSpelling SpellsRoll IsRoll }
    ensures only { OnlyThese SpellsRoll IsRoll }
{}

/// No bytes spell two rolls.
pub fn one_roll()
    ensures { SpellsOne SpellsRoll }
{}

/// No spelling is a prefix of another's.
pub fn no_prefix()
    ensures { NoPrefix SpellsRoll }
{}

/// A roll's spelling has 12 bytes and those of its body: 17, 258, 17 or 1,037. None is shorter than the shortest packet.
pub fn lengths()
    ensures given { LengthsAreGiven }
    ensures least { NoneIsShort }
{}

/// Reading from the front, which says what the first fault is, finds what the grammar says.
pub fn reading()
    ensures again { ReadsItAgain SpellsRoll roll_at }
    ensures found { FindsWhatIsSpelled SpellsRoll roll_at }
{}

/// What spells a roll is no packet of either version, and is refused as bytes of a bad mark.
pub fn is_no_packet()
    ensures { IsNoPacket SpellsRoll }
{}

/// What spells a roll is no recall, and is refused as bytes of a bad kind; what spells a recall is no roll.
pub fn is_no_recall()
    ensures roll { IsNoRecall }
    ensures recall { NoRecallIsOne }
{}

/// What spells a roll is heard as it, and so is what spells a recall.
pub fn hears()
    ensures rolls { HearsRolls }
    ensures recalls { HearsRecalls }
{
    recalls::laws::reading();
}
