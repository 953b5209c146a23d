//! Laws over the definitions. The functions do nothing: their contracts are the laws.

ghost use Rattle.proposer.specs.InHand.{OtherMarksPass};

/// A proposal goes on to stand for the marks when a mark comes that is not about its number's proposal.
pub fn other_marks_pass()
    ensures { OtherMarksPass }
{}
