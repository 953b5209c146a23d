//! Why a configuration is none.

ghost use Rattle.std.specs.Prelude.{◌≡◌};
ghost use Rattle.command_ends.specs.Ends.{end_of};
ghost use Rattle.command_ends.specs.declared.end.End.TheVariants.{Input};
ghost use Rattle.configuration.specs.Ends.{EndsByConfig};
ghost use Rattle.configuration.specs.Keys.{name_of};
ghost use Rattle.configuration.specs.declared.fault.ConfigFault.TheVariants.{OutOfMemory};

use command_ends::Fault;
use std::alloc::{AllocError, AllocFailed};

/// The keys of a configuration, in the order in which they are read.
#[derive(Clone, Copy, PartialEq, Eq)]
pub enum ConfigKey {
    Circuit,
    Member,
    Table,
    Widths,
    Rows,
    /// The table of the folders, which may be absent.
    Folders,
    /// The keys of that table.
    Offers,
    Releases,
    /// These may be absent.
    Text,
    Renamed,
    Status,
    /// The table of catching up, and its key; both may be absent.
    CatchUp,
    Off,
    /// The table of the wire, which may be absent, and its key.
    Wire,
    Key,
    Station,
}

impl ConfigKey {
    /// The key as it stands in the file.
    pub fn name(self) -> &'static str
        ensures { result.now ≡ name_of self }
    {
        match self {
            ConfigKey::Circuit => "circuit",
            ConfigKey::Member => "member",
            ConfigKey::Table => "table",
            ConfigKey::Widths => "widths",
            ConfigKey::Rows => "rows",
            ConfigKey::Folders => "folders",
            ConfigKey::Offers => "offers",
            ConfigKey::Releases => "releases",
            ConfigKey::Text => "text",
            ConfigKey::Renamed => "renamed",
            ConfigKey::Status => "status",
            ConfigKey::CatchUp => "catch_up",
            ConfigKey::Off => "off",
            ConfigKey::Wire => "wire",
            ConfigKey::Key => "key",
            ConfigKey::Station => "station",
        }
    }
}

/// The first of these that holds.
#[derive(Clone, Copy, PartialEq, Eq)]
pub enum ConfigFault {
    /// The text is not TOML.
    NotToml,
    /// The key is not there.
    Missing(ConfigKey),
    /// The value of the key is of another type.
    WrongType(ConfigKey),
    /// The value of the key is out of range. That a member is above the number of stations is found last of all.
    OutOfRange(ConfigKey),
    /// The entry of this place, from 1, among the stations is none, or an earlier one has its member, or its IP address
    /// and port.
    BadStation(usize),
    /// For the host that the entry of this place names no IPv4 address was found.
    NoAddress(usize),
    /// There is no memory for it.
    OutOfMemory,
}

impl From<AllocError> for ConfigFault {
    ghost from_gives = { λ _ fault. fault ≡ OutOfMemory };

    fn from(_error: AllocError) -> ConfigFault {
        ConfigFault::OutOfMemory
    }
}

impl<T: Drop> From<AllocFailed<T>> for ConfigFault {
    ghost from_gives = { λ _ fault. fault ≡ OutOfMemory };

    fn from(_error: AllocFailed<T>) -> ConfigFault {
        ConfigFault::OutOfMemory
    }
}

/// The fault of a key, which has this name in the file.
fn of_key<'a>(what: &'static str, key: ConfigKey) -> Fault<'a>
    ensures { end_of result ≡ Input }
{
    Fault::ConfigKey {
        what,
        key: key.name(),
    }
}

/// What a person reads.
impl<'a> From<ConfigFault> for Fault<'a> {
    ghost from_gives = { λ fault told. EndsByConfig fault told };

    fn from(fault: ConfigFault) -> Fault<'a> {
        match fault {
            ConfigFault::NotToml => Fault::Config("not toml"),
            ConfigFault::Missing(key) => of_key("missing", key),
            ConfigFault::WrongType(key) => of_key("wrong type", key),
            ConfigFault::OutOfRange(key) => of_key("out of range", key),
            ConfigFault::BadStation(entry) => Fault::ConfigStation(entry),
            ConfigFault::NoAddress(entry) => Fault::ConfigHost(entry),
            ConfigFault::OutOfMemory => Fault::OutOfMemory,
        }
    }
}
