//! A law over the definitions. The function does nothing: its contract is the law.

ghost use Rattle.line_fit.specs.Fitting.{TellsFirst};

/// The first fault that a fitting tells is the one that keeps the tape from being set.
#[tactic(auto, using(crate::proofs::Telling::tells_first))]
pub fn tells_first()
    ensures { TellsFirst }
{}
