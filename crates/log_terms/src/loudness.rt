//! How much a station that stays up tells, and how.

ghost use Rattle.std.specs.Prelude.{◌≡◌, if◌then◌else◌};

/// How much is told.
#[derive(Clone, Copy, PartialEq, Eq)]
pub enum Loudness {
    /// Faults alone.
    Faults,
    /// What a person wants to know who reads the log the next morning: a line a story, and a line an hour of what waits.
    Usual,
    /// All.
    All,
}

/// How a station tells.
#[derive(Clone, Copy, PartialEq, Eq)]
pub struct LogTerms {
    pub loudness: Loudness,
    /// Whether the moment stands before each line.
    pub times: bool,
}

/// How much is told where it is said that it is little, or much; the grammar of a call takes one of the two at most.
pub fn loudness_of(quiet: bool, verbose: bool) -> Loudness
    ensures { result ≡ (if quiet then Loudness.Faults else if verbose then Loudness.All else Loudness.Usual) }
{
    if quiet {
        Loudness::Faults
    } else if verbose {
        Loudness::All
    } else {
        Loudness::Usual
    }
}
