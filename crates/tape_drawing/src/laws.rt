//! Laws over the definitions. The functions do nothing: their contracts are the laws.

ghost use Rattle.tape_drawing.specs.Laws.{FramesInOrder, BoxesAddUp, FaultyAddUp};

use line_check::laws::adds_up;

/// Each frame of a tape is drawn once, in its order, with its levels and what it means.
pub fn frames_in_order()
    ensures { FramesInOrder }
{
    adds_up();
}

/// The boxes of a slug lie side by side and add up to the measure.
pub fn boxes_add_up()
    ensures { BoxesAddUp }
{}

/// Those of a line that does not set add up to its least or its greatest width.
pub fn faulty_add_up()
    ensures { FaultyAddUp }
{}
