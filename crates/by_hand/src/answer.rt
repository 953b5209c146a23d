//! What came of a number.

ghost use Rattle.std.specs.Prelude.{◌≡◌};
ghost use Rattle.by_hand.specs.Answers.{answer_word};

/// What came of a number that was asked for.
#[derive(Clone, Copy, PartialEq, Eq)]
pub enum SearchEnd {
    /// A tape stands there.
    Tape,
    /// The number is withdrawn.
    Void,
    /// Nothing was found there.
    Nothing,
}

impl SearchEnd {
    /// Its word in the text.
    pub(crate) fn word(self) -> &'static str
        ensures { result.now ≡ answer_word self }
    {
        match self {
            SearchEnd::Tape => "tape",
            SearchEnd::Void => "void",
            SearchEnd::Nothing => "nothing",
        }
    }
}
