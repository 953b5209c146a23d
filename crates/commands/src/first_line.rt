//! What a station that starts to run tells first.

ghost use Rattle.std.specs.Prelude.{Some};
ghost use Rattle.commands.specs.FirstLine.{address_text, first_text, saved_text};

use ballots::Number;
use gone_out::{Known, Numbers};
use plant_status::StationId;
use std::fmt;
use std::io::Write;
use wire::Address;

/// How many numbers are saved, and the greatest of them; not known of a station without a plant.
#[derive(Clone, Copy)]
pub(crate) enum Saved {
    Unknown,
    Nothing,
    Numbers { count: u32, greatest: u32 },
}

/// What a station that starts to run tells first.
#[derive(Clone, Copy)]
pub(crate) struct FirstLine {
    pub(crate) station: StationId,
    pub(crate) ip: [u8; 4],
    pub(crate) port: u16,
    pub(crate) saved: Saved,
}

impl fmt::Display for Saved {
    ghost output = { λ s. Some (saved_text s) };

    fn fmt<W: fmt::Write>(&self, f: &mut fmt::Formatter<W>) -> fmt::Result {
        match *self {
            Saved::Unknown => Ok(()),
            Saved::Nothing => write!(f, ", no number saved"),
            Saved::Numbers { count, greatest } => {
                write!(f, ", {count} numbers saved, the greatest {greatest}")
            }
        }
    }
}

impl fmt::Display for FirstLine {
    ghost output = { λ l. Some (first_text l) };

    fn fmt<W: fmt::Write>(&self, f: &mut fmt::Formatter<W>) -> fmt::Result {
        let [a, b, c, d] = self.ip;
        write!(
            f,
            "{} at {a}.{b}.{c}.{d}:{}{}",
            self.station, self.port, self.saved
        )
    }
}

/// The greatest of these numbers, or 0.
fn greatest(numbers: &Numbers) -> u32 {
    for below in 0..Number::LAST {
        if let Some(number) = Number::new(Number::LAST - below)
            && numbers.contains(number)
        {
            return number.get();
        }
    }
    0
}

/// How many numbers have a saved row, where that is known.
pub(crate) fn saved_of(known: &Option<Known>) -> Saved {
    let Some(known) = known else {
        return Saved::Unknown;
    };
    match known.rows.len() {
        0 => Saved::Nothing,
        count => Saved::Numbers {
            count,
            greatest: greatest(&known.rows),
        },
    }
}

/// Tells which station it is, where it listens, and how many numbers are saved. That the writer fails is ignored.
pub(crate) fn tell_first<E: Write>(
    station: StationId,
    address: Option<&Address>,
    saved: Saved,
    err: &mut E,
) {
    if let Some(address) = address {
        let line = FirstLine {
            station,
            ip: address.ip,
            port: address.port,
            saved,
        };
        let _ = writeln!(err, "{line}");
    }
}
