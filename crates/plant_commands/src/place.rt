//! On which host a station is.

ghost use Rattle.std.specs.Prelude.{◌≡◌};
ghost use Rattle.plant_commands.specs.Places.{place_of};

/// On which host the station of an address is, as this host sees it.
#[derive(Clone, Copy, PartialEq, Eq)]
pub enum HostPlace {
    /// It is the station of the configuration, and its address is this host's.
    Own,
    /// It is the station of the configuration, and its address is not this host's: it can't be bound here.
    Amiss,
    /// It is another station, on this host.
    Beside,
    /// It is another station, on another host.
    Away,
}

/// Where a station is: whether it is that of the configuration, and whether its address is this host's.
pub fn place_of(is_own: bool, is_here: bool) -> HostPlace
    ensures { result ≡ place_of is_own is_here }
{
    match (is_own, is_here) {
        (true, true) => HostPlace::Own,
        (true, false) => HostPlace::Amiss,
        (false, true) => HostPlace::Beside,
        (false, false) => HostPlace::Away,
    }
}
