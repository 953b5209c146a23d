//! Laws over the definitions. The functions do nothing: their contracts are the laws.

ghost use Rattle.text_tape.specs.Laws.{TapesSay, SpellsBack, OnePunching, NotBoth};

/// A tape that is punched says the words of its text: each word, in order, has a frame that means it in the case that holds
/// there, and every other frame is a case code.
#[tactic(auto, using(crate::proofs::Said::tapes_say))]
pub fn tapes_say()
    ensures { TapesSay }
{}

/// What a tape is spelled as is punched as that tape.
#[tactic(auto, using(crate::proofs::Spelled::spells_back))]
pub fn spells_back()
    ensures { SpellsBack }
{}

/// A text is read as words in one way, and punched as one tape.
#[tactic(auto, using(crate::proofs::Unique::one_punching))]
pub fn one_punching()
    ensures { OnePunching }
{}

/// A text with a first fault is not punched as a tape of so many frames at most: so `punch` answers a fault where there is
/// no tape, and a tape where there is one.
pub fn not_both()
    ensures { NotBoth }
{}
