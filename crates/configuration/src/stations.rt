//! The stations of a configuration, entry by entry.

ghost use Rattle.std.specs.Prelude.{◌≡◌, ◌≤◌, ◌⊎◌, length, IfOk, IfErr, Ok, Err, vec_len};
ghost use Rattle.protocol.specs.Limits.{most_members};
ghost use Rattle.toml.specs.View.{view, array_view};
ghost use Rattle.configuration.specs.Stations.{AreInOrder, are_at_odds, is_taken, found_at, read_entry, addresses_of, address_among, in_order, read_stations};
ghost use Rattle.configuration.specs.declared.fault.ConfigFault.TheVariants.{OutOfMemory};

use crate::entry::{StationEntry, address_of};
use crate::fault::ConfigFault;
use std::alloc::{AllocError, Global};
use toml::Value;
use toml::value::Array;
use wire::Address;

/// Whether they are of one member, or have one IP address and port.
fn are_at_odds(a: &Address, b: &Address) -> bool
    ensures { result ≡ are_at_odds a.now b.now }
{
    a.member.get() == b.member.get() || (a.ip == b.ip && a.port == b.port)
}

/// Whether one of these is at odds with the address.
fn is_taken(earlier: &[Address], address: &Address) -> bool
    ensures { result ≡ is_taken earlier.now address.now }
{
    earlier.iter().any(|other| are_at_odds(other, address))
}

/// The address of an entry, where none of the earlier is at odds with it.
#[tactic(auto, unfolding(crate::specs::Stations::read_entry))]
fn read_entry(earlier: &[Address], entry: &StationEntry<'_>) -> Result<Address, ConfigFault>
    ensures { result ≡ read_entry entry.now.members earlier.now entry.now.place entry.now.found (view entry.now.value.now) }
{
    let address = address_of(entry)?;
    if is_taken(earlier, &address) {
        return Err(ConfigFault::BadStation(entry.place));
    }
    Ok(address)
}

/// What was found for the host of the entry at a place, counted from 0.
fn found_at(found: &[Option<[u8; 4]>], index: usize) -> Option<[u8; 4]>
    ensures { result ≡ found_at found.now index }
{
    match found.get(index) {
        Some(ip) => *ip,
        None => None,
    }
}

/// The addresses of all entries, in their order.
fn read_entries(
    alloc: Global,
    found: &[Option<[u8; 4]>],
    entries: &Array,
) -> Result<Vec<Address>, ConfigFault>
    requires { vec_len entries.now ≤ most_members }
    ensures ok { IfOk result (λ addresses. addresses_of found.now (array_view entries.now) ≡ Ok addresses.items) }
    ensures err { IfErr result (λ e. (e ≡ OutOfMemory) ⊎ (addresses_of found.now (array_view entries.now) ≡ Err e)) }
{
    let members = entries.len() as u16;
    let mut addresses = Vec::with_capacity(alloc, entries.len())?;
    for (index, value) in entries.iter().enumerate() {
        let entry = StationEntry {
            members,
            place: index + 1,
            found: found_at(found, index),
            value,
        };
        let address = read_entry(&addresses, &entry)?;
        addresses.push(address)?;
    }
    Ok(addresses)
}

/// The address of a member among some.
fn address_among(addresses: &[Address], member: usize) -> Option<Address>
    ensures { result ≡ address_among addresses.now member }
{
    addresses
        .iter()
        .find(|address| usize::from(address.member.get()) == member)
        .copied()
}

/// The addresses in order of their members, from 1.
fn in_order(alloc: Global, addresses: &[Address]) -> Result<Vec<Address>, AllocError>
    ensures { IfOk result (λ stations. stations.items ≡ in_order addresses.now) }
{
    let mut stations = Vec::with_capacity(alloc, addresses.len())?;
    for index in 0..addresses.len() {
        if let Some(address) = address_among(addresses, index + 1) {
            stations.push(address)?;
        }
    }
    Ok(stations)
}

/// The stations of an array's entries, where this was found for their hosts, in order of their members: as many members as entries.
pub(crate) fn read_stations(
    alloc: Global,
    found: &[Option<[u8; 4]>],
    entries: &Array,
) -> Result<Vec<Address>, ConfigFault>
    requires { vec_len entries.now ≤ most_members }
    ensures ok { IfOk result (λ stations. read_stations found.now (array_view entries.now) ≡ Ok stations.items) }
    ensures order { IfOk result (λ stations. AreInOrder stations.items) }
    ensures most { IfOk result (λ stations. length stations.items ≤ most_members) }
    ensures err { IfErr result (λ e. (e ≡ OutOfMemory) ⊎ (read_stations found.now (array_view entries.now) ≡ Err e)) }
{
    let addresses = read_entries(alloc, found, entries)?;
    let stations = in_order(alloc, &addresses)?;
    Ok(stations)
}
