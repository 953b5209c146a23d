//! The hosts of stations that are asked for, as they are taken while a configuration is read back.

ghost use Rattle.std.specs.Prelude.{◌≡◌, ℕ, List, Option, option_map};
ghost use Rattle.init_command.specs.Asked.{name_in, name_at, IsTakenFor};

use crate::place::{StationHost, StationPlace};
use crate::same::is_text;
use configuration::Hosts;

/// Hosts of which only those are known that were asked for, each at its place. Each is taken for an address that no host has, and that tells
/// its place: so a configuration that is read by these hosts names each of them where it was asked for.
#[derive(Clone, Copy)]
pub(crate) struct AskedHosts<'a> {
    pub(crate) places: &'a [StationPlace<'a>],
}

/// The name of the host of a place, if it has one.
fn name_in<'a>(place: &StationPlace<'a>) -> Option<&'a str>
    ensures { option_map (λ s. s.now) result ≡ name_in place.now.host }
{
    match place.host {
        StationHost::Name(name) => Some(name),
        StationHost::Ip(_) => None,
    }
}

/// The name of the host at a place, counted from 1, if it has one.
fn name_at<'a>(places: &[StationPlace<'a>], at: usize) -> Option<&'a str>
    ensures { option_map (λ s. s.now) result ≡ name_at places.now at }
{
    if at == 0 {
        return None;
    }
    match places.get(at - 1) {
        Some(place) => name_in(place),
        None => None,
    }
}

impl Hosts for AskedHosts<'_> {
    ghost finds = { λ s at name ip. IsTakenFor s.places.now at name ip };

    fn look_up(&self, at: usize, name: &str) -> Option<[u8; 4]> {
        let asked = name_at(self.places, at)?;
        if !is_text(asked, name) {
            return None;
        }
        match u8::try_from(at) {
            Ok(at) => Some([0, 0, 0, at]),
            Err(_) => None,
        }
    }
}
