//! Laws over the definitions. The functions do nothing: their contracts are the laws.

ghost use Rattle.learner.specs.Latest.{OtherMarksPass};

/// Heard votes go on to stand for the marks when a mark comes that hears no vote for their number.
pub fn other_marks_pass()
    ensures { OtherMarksPass }
{}
