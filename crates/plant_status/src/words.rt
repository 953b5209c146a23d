//! The parts of a status, as they stand in its text.

ghost use Rattle.std.specs.Prelude.{◌≡◌, Some};
ghost use Rattle.plant_status.specs.Texts.{clock_text, moment_text, purpose_text, shown_text, station_text, two};

use crate::moment::Moment;
use crate::status::{Purpose, StationId};
use std::fmt;

/// A number below 100, by two digits.
#[derive(Clone, Copy)]
struct Two(u8);

impl fmt::Display for Two {
    ghost output = { λ t. Some (two t.0) };

    fn fmt<W: fmt::Write>(&self, f: &mut fmt::Formatter<W>) -> fmt::Result {
        let Two(number) = *self;
        write!(f, "{}{}", number / 10, number % 10)
    }
}

/// The time of day of a moment, as `20:51:07Z`.
#[derive(Clone, Copy)]
struct ClockText(Moment);

impl fmt::Display for ClockText {
    ghost output = { λ t. Some (clock_text t.0) };

    fn fmt<W: fmt::Write>(&self, f: &mut fmt::Formatter<W>) -> fmt::Result {
        let ClockText(moment) = *self;
        write!(
            f,
            "{}:{}:{}Z",
            Two(moment.hour),
            Two(moment.minute),
            Two(moment.second)
        )
    }
}

/// A moment with its day, as `2026-11-26T20:51:07Z`.
impl fmt::Display for Moment {
    ghost output = { λ m. Some (moment_text m) };

    fn fmt<W: fmt::Write>(&self, f: &mut fmt::Formatter<W>) -> fmt::Result {
        write!(
            f,
            "{}-{}-{}T{}",
            self.year,
            Two(self.month),
            Two(self.day),
            ClockText(*self)
        )
    }
}

/// A moment in what was written at another: on the same day its time alone.
#[derive(Clone, Copy)]
pub(crate) struct ShownText {
    pub(crate) written: Moment,
    pub(crate) moment: Moment,
}

impl fmt::Display for ShownText {
    ghost output = { λ t. Some (shown_text t.written t.moment) };

    fn fmt<W: fmt::Write>(&self, f: &mut fmt::Formatter<W>) -> fmt::Result {
        if self.written.is_on_day_of(&self.moment) {
            write!(f, "{}", ClockText(self.moment))
        } else {
            write!(f, "{}", self.moment)
        }
    }
}

impl fmt::Display for StationId {
    ghost output = { λ s. Some (station_text s) };

    fn fmt<W: fmt::Write>(&self, f: &mut fmt::Formatter<W>) -> fmt::Result {
        write!(
            f,
            "station {} of {} circuit {} layout {}",
            self.member, self.count, self.circuit, self.layout
        )
    }
}

impl Purpose {
    /// Its word.
    pub fn word(self) -> &'static str
        ensures { result.now ≡ purpose_text self }
    {
        match self {
            Purpose::Seek => "seek",
            Purpose::Offer => "offer",
        }
    }
}
