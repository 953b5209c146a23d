//! Laws over roll calls. The functions do nothing: their contracts are the laws.

ghost use Rattle.roll_call.specs.Laws.{KeepsCounts, KeepsPage, PassesOver};

/// What is told and was not asked for changes nothing.
pub fn passes_over()
    ensures { PassesOver }
{}

/// What was asked for is kept as the members told it.
pub fn keeps_what_is_told()
    ensures counts { KeepsCounts }
    ensures page { KeepsPage }
{}
