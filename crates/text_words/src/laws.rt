//! Laws over the definitions. The functions do nothing: their contracts are the laws.

ghost use Rattle.text_words.specs.Laws.{OnePiece, IsReadAgain, OneBeginning};

/// A text begins with one piece at most, and that says one word at most.
#[tactic(auto, using(crate::proofs::Pieces::one_piece))]
pub fn one_piece()
    ensures { OnePiece }
{}

/// A word that is written is read again as that word.
#[tactic(auto, using(crate::proofs::Worded::read_again))]
pub fn read_again()
    ensures { IsReadAgain }
{}

/// A text is begun in one way, whatever the ligatures.
#[tactic(auto, using(crate::proofs::Beginning::one_beginning))]
pub fn one_beginning()
    ensures { OneBeginning }
{}
