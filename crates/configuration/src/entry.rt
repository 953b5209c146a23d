//! An entry of the stations as a TOML document has it.

ghost use Rattle.std.specs.Prelude.{◌≡◌, ◌≤◌, IfSome, codes, option_map};
ghost use Rattle.protocol.specs.Limits.{most_members};
ghost use Rattle.toml.specs.View.{view, table_view};
ghost use Rattle.toml.specs.Data.{get_member};
ghost use Rattle.configuration.specs.Addresses.{number_in, spelled_ip};
ghost use Rattle.configuration.specs.Stations.{ip_of_either, ip_in, address_of};

use crate::address::ip_of;
use crate::fault::ConfigFault;
use crate::keys::{in_range, value_of};
use ballots::Member;
use toml::{Table, Value};
use wire::Address;

/// The greatest port.
const LAST_PORT: u16 = 65535;

/// An entry of the stations.
#[derive(Clone, Copy)]
pub(crate) struct StationEntry<'a> {
    /// Of how many members the circuit is.
    pub(crate) members: u16,
    /// Its place among them, from 1.
    pub(crate) place: usize,
    /// What was found for the name of its host, if it has one.
    pub(crate) found: Option<[u8; 4]>,
    pub(crate) value: &'a Value,
    ghost few: { members ≤ most_members },
}

/// The whole number at the key, from the least to the most.
#[tactic(auto, unfolding(crate::specs::Addresses::number_in))]
fn number_in(entry: &Table, key: &str, least: u16, most: u16) -> Option<u16>
    ensures value { result ≡ number_in key.now least most (table_view entry.now) }
    ensures low { IfSome result (λ number. least ≤ number) }
    ensures high { IfSome result (λ number. number ≤ most) }
{
    let value = value_of(entry, key)?;
    let number = value.as_integer()?;
    in_range(least, most, number)
}

/// The IP address that a value spells.
#[tactic(auto, unfolding(crate::specs::Addresses::spelled_ip))]
fn spelled_ip(value: &Value) -> Option<[u8; 4]>
    ensures { result ≡ spelled_ip (view value.now) }
{
    let text = value.as_str()?;
    ip_of(text)
}

/// What was found for the name that a value is.
fn named_ip(entry: &StationEntry<'_>, value: &Value) -> Result<[u8; 4], ConfigFault>
    ensures { result ≡ ip_of_either entry.now.place entry.now.found None (Some (view value.now)) }
{
    if value.as_str().is_none() {
        return Err(ConfigFault::BadStation(entry.place));
    }
    entry.found.ok_or(ConfigFault::NoAddress(entry.place))
}

/// The IP address of an entry with these keys: the one at `ip`, or the one that was found for the name at `host`. It has one of the two.
#[tactic(auto, unfolding(crate::specs::Stations::ip_in))]
fn ip_in(entry: &StationEntry<'_>, keys: &Table) -> Result<[u8; 4], ConfigFault>
    ensures { result ≡ ip_in entry.now.place entry.now.found (table_view keys.now) }
{
    match (value_of(keys, "ip"), value_of(keys, "host")) {
        (Some(value), None) => spelled_ip(value).ok_or(ConfigFault::BadStation(entry.place)),
        (None, Some(value)) => named_ip(entry, value),
        _ => Err(ConfigFault::BadStation(entry.place)),
    }
}

/// The member of an entry with these keys, one of the circuit's.
fn member_in(entry: &StationEntry<'_>, keys: &Table) -> Option<Member>
    ensures { result ≡ number_in (codes "member") 1 entry.now.members (table_view keys.now) }
{
    let number = number_in(keys, "member", 1, entry.members)?;
    Member::new(number as u8)
}

/// The address of an entry: a table with the keys `member`, which is one of the circuit's, `port`, and `ip` or `host`.
#[tactic(auto, unfolding(crate::specs::Stations::address_of))]
pub(crate) fn address_of(entry: &StationEntry<'_>) -> Result<Address, ConfigFault>
    ensures { result ≡ address_of entry.now.members entry.now.place entry.now.found (view entry.now.value.now) }
{
    let bad = ConfigFault::BadStation(entry.place);
    let keys = entry.value.as_table().ok_or(bad)?;
    let member = member_in(entry, keys).ok_or(bad)?;
    let port = number_in(keys, "port", 1, LAST_PORT).ok_or(bad)?;
    let ip = ip_in(entry, keys)?;
    Ok(Address { member, ip, port })
}
