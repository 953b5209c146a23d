//! What is kept of a number is enough. The functions do nothing: their contracts are the laws.

ghost use Rattle.healing.specs.Laws.{CaseTellsAll, HeldIsDueAtOnce, LeftKnowsNoNewVoter, LeftStaysLeft};
ghost use Rattle.healing.specs.Voters.{AreSets};

/// By the case that is kept of a number it is lacked exactly where it is by all that was heard of it. What a page tells of and has
/// no case is so at once.
pub fn lacking()
    ensures all { CaseTellsAll }
    ensures held { HeldIsDueAtOnce }
{}

/// A number that is left waits again as soon as a member has a vote that was not known to have one as the last ballot of it was begun, and
/// by no other news.
pub fn left_knows_no_new_voter()
    ensures knows { LeftKnowsNoNewVoter }
    ensures stays { LeftStaysLeft }
{}

/// The bits of voters are sets of members.
pub fn voters_are_sets()
    ensures { AreSets }
{}
