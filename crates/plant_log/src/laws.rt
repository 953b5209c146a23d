//! A law over the definitions. The function does nothing: its contract is the law.

ghost use Rattle.plant_log.specs.Night.{WaitsByTheHour};

/// Whatever befalls the ballots of a number that waits, and however often it is asked for: in the usual log it costs two lines, and one
/// for each whole hour that it waits.
pub fn waiting_costs_a_line_an_hour()
    ensures { WaitsByTheHour }
{}
