//! Moments, in whole seconds.

ghost use Rattle.std.specs.Prelude.{◌≡◌};
ghost use Rattle.plant_status.specs.Texts.{is_same_day};

use jiff::Timestamp;
use jiff::civil::DateTime;
use jiff::tz::Offset;

/// A moment in whole seconds, as a calendar and a clock tell it in Coordinated Universal Time.
#[derive(Clone, Copy)]
pub struct Moment {
    pub year: u16,
    pub month: u8,
    pub day: u8,
    pub hour: u8,
    pub minute: u8,
    pub second: u8,
}

/// A number of a calendar or a clock; one that is past them all where it is past an `i8`.
fn signed(number: u8) -> i8 {
    i8::try_from(number).unwrap_or(i8::MAX)
}

impl Moment {
    /// The moment so many seconds after 1970 began; nothing where a calendar does not reach it.
    pub fn at(seconds: u64) -> Option<Moment> {
        let seconds = i64::try_from(seconds).ok()?;
        let shown = Offset::UTC.to_datetime(Timestamp::from_second(seconds).ok()?);
        // None of them is negative: 1970 was before.
        Some(Moment {
            year: shown.year().unsigned_abs(),
            month: shown.month().unsigned_abs(),
            day: shown.day().unsigned_abs(),
            hour: shown.hour().unsigned_abs(),
            minute: shown.minute().unsigned_abs(),
            second: shown.second().unsigned_abs(),
        })
    }

    /// How many seconds after 1970 began it is; nothing where no calendar has it.
    pub fn seconds(&self) -> Option<u64> {
        let shown = DateTime::new(
            i16::try_from(self.year).unwrap_or(i16::MAX),
            signed(self.month),
            signed(self.day),
            signed(self.hour),
            signed(self.minute),
            signed(self.second),
            0,
        )
        .ok()?;
        u64::try_from(Offset::UTC.to_timestamp(shown).ok()?.as_second()).ok()
    }

    /// Whether both are on one day.
    pub(crate) fn is_on_day_of(&self, other: &Moment) -> bool
        ensures { result ≡ is_same_day self.now other.now }
    {
        self.year == other.year && (self.month == other.month && self.day == other.day)
    }
}
