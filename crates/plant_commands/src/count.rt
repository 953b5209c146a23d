//! How many stations a circuit has.

ghost use Rattle.std.specs.Prelude.{◌≡◌, ◌%◌, ◌==◌};

/// Whether a circuit has an even count of stations: then it bears no more absences than with one station fewer.
pub fn is_even(stations: usize) -> bool
    ensures { result ≡ (stations % 2 == 0) }
{
    stations % 2 == 0
}
