//! What the order of asks, and the news of a file, come to. The functions do nothing: their contracts are the laws.

ghost use Rattle.offers.specs.Fairness.{SearchesAreAskedFor};
ghost use Rattle.offers.specs.Nothings.{AnsweredAfterTen};

/// No search starves: of any nine asks in a row one is for a search, as long as the station may be asked for one.
pub fn searches_are_asked_for()
    ensures { SearchesAreAskedFor }
{}

/// Only a search leaves the offers as answered, and only after a majority was found ten times to know of nothing, since the file was found
/// as it is.
pub fn searches_are_answered_after_ten()
    ensures { AnsweredAfterTen }
{}
