//! Laws over the definitions. The functions do nothing: their contracts are the laws.

ghost use Rattle.pace.specs.Rule.{LooksComeFirst, DatagramsWait, DueNumbersGiveWay, DeedsGiveWay, AsksAreFew, WaitsHaveNoWork};
ghost use Rattle.pace.specs.Fairness.{DueNumbersAreSeenTo, DeedsAreDone, DatagramsAreTakenIn, LooksAreTaken};

/// No kind of work starves, whatever comes and however long each work takes: in any sequence of turns each comes after a bounded
/// number of them.
pub fn no_work_starves()
    ensures due { DueNumbersAreSeenTo }
    ensures deeds { DeedsAreDone }
    ensures datagrams { DatagramsAreTakenIn }
    ensures looks { LooksAreTaken }
{}

/// Which kinds of work go before which others.
pub fn work_is_in_order()
    ensures looks { LooksComeFirst }
    ensures datagrams { DatagramsWait }
    ensures due { DueNumbersGiveWay }
    ensures deeds { DeedsGiveWay }
    ensures asks { AsksAreFew }
    ensures waits { WaitsHaveNoWork }
{}
