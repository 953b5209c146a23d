//! Laws over the definitions. The functions do nothing: their contracts are the laws.

ghost use Rattle.code_chart.specs.Laws.{FramesInOrder, NoneJustThere, LackingJustThere, SharedJustThere};

/// A chart has each of the 64 combinations once, and in order.
pub fn frames_in_order()
    ensures { FramesInOrder }
{}

/// A cell is marked just where it should be: as without a meaning where the table has none, as without a width where it
/// means a matrix that the width file lacks, and as shared where another combination has the same meaning.
pub fn marked_just_there()
    ensures none { NoneJustThere }
    ensures lacking { LackingJustThere }
    ensures shared { SharedJustThere }
{}
