//! The hosts that the entries of the stations name, and what looks them up.

ghost use Rattle.std.specs.Prelude.{◌≡◌, ◌≤◌, ◌∷◌, ℕ, List, [], Option, Some, option_map, IfOk, ⊤, min, vec_len};
ghost use Rattle.protocol.specs.Limits.{most_members};
ghost use Rattle.toml.specs.Parse.{parse_document};
ghost use Rattle.toml.specs.View.{view, table_view, array_view};
ghost use Rattle.configuration.specs.Hosts.{host_of, IsFound, AreHosts, AreFound, AreFoundIn};

use crate::config::document_of;
use crate::fault::ConfigFault;
use crate::keys::{entries_at, value_of};
use std::alloc::{AllocError, Global};
use std::net::{Net, SocketAddr, ToSocketAddrs};
use toml::value::Array;
use toml::{Table, Value};

/// What finds the addresses of hosts by their names.
pub trait Hosts {
    // What may be found for the entry at this place, from 1, whose host has this name.
    ghost finds: { Self → ℕ → List ℕ → Option (List ℕ) → Type 0 };

    /// The first IPv4 address of the host of this name, where one is found. The entry at this place, from 1, names it.
    fn look_up(&self, place: usize, name: &str) -> Option<[u8; 4]>
        ensures { finds self.now place name.now result };
}

/// The hosts that the resolver of this machine knows. It may wait as long as the resolver does.
#[derive(Clone, Copy)]
pub struct Resolver<'a, N: Net> {
    pub net: &'a N,
}

/// The four parts of an IPv4 address; `None` for another.
fn ip_of(address: SocketAddr) -> Option<[u8; 4]> {
    match address {
        SocketAddr::V4(address) => Some(address.ip().octets()),
        SocketAddr::V6(_) => None,
    }
}

impl<'a, N: Net> Hosts for Resolver<'a, N> {
    ghost finds = { λ _ _ _ _. ⊤ };

    fn look_up(&self, _place: usize, name: &str) -> Option<[u8; 4]> {
        let Ok(addresses) = (name, 0u16).to_socket_addrs(self.net) else {
            return None;
        };
        for address in addresses {
            let ip = ip_of(address);
            if ip.is_some() {
                return ip;
            }
        }
        None
    }
}

/// Hosts that are not looked up, where nothing is said to them: each is taken for another, at an address that no host has.
#[derive(Clone, Copy)]
pub struct NoLookUp;

impl Hosts for NoLookUp {
    ghost finds = { λ _ place _ ip. ip ≡ Some (0 ∷ 0 ∷ 0 ∷ min place 255 ∷ []) };

    fn look_up(&self, place: usize, _name: &str) -> Option<[u8; 4]> {
        Some([0, 0, 0, u8::try_from(place).unwrap_or(u8::MAX)])
    }
}

/// The name of the host of an entry, if it has one.
#[tactic(auto, unfolding(crate::specs::Hosts::host_of))]
fn host_of(entry: &Value) -> Option<&str>
    ensures { option_map (λ s. s.now) result ≡ host_of (view entry.now) }
{
    let keys = entry.as_table()?;
    let value = value_of(keys, "host")?;
    value.as_str()
}

/// What is found for the entry at a place, from 1, where it names a host.
fn find_host<H: Hosts>(hosts: &H, place: usize, entry: &Value) -> Option<[u8; 4]>
    ensures { IsFound (H.finds hosts.now) place (host_of (view entry.now)) result }
{
    match host_of(entry) {
        Some(name) => hosts.look_up(place, name),
        None => None,
    }
}

/// What is found for each entry.
fn hosts_of<H: Hosts>(
    alloc: Global,
    hosts: &H,
    entries: &Array,
) -> Result<Vec<Option<[u8; 4]>>, AllocError>
    requires { vec_len entries.now ≤ most_members }
    ensures { IfOk result (λ found. AreHosts (H.finds hosts.now) (array_view entries.now) found.items) }
{
    let mut found = Vec::with_capacity(alloc, entries.len())?;
    for (index, entry) in entries.iter().enumerate() {
        found.push(find_host(hosts, index + 1, entry))?;
    }
    Ok(found)
}

/// What is found for each entry of the stations of a document.
fn hosts_in<H: Hosts>(
    alloc: Global,
    hosts: &H,
    file: &Table,
) -> Result<Vec<Option<[u8; 4]>>, AllocError>
    ensures { IfOk result (λ found. AreFoundIn (H.finds hosts.now) (table_view file.now) found.items) }
{
    match entries_at(file) {
        Ok(entries) => hosts_of(alloc, hosts, entries),
        Err(_) => Ok(Vec::new(alloc)),
    }
}

/// What is found for the host of each station of a configuration's text, entry by entry: each name is looked up once. Of a text that is not
/// TOML, and of one without entries, nothing is looked up.
pub fn find_hosts<H: Hosts>(
    alloc: Global,
    hosts: &H,
    text: &str,
) -> Result<Vec<Option<[u8; 4]>>, AllocError>
    ensures { IfOk result (λ found. AreFound (H.finds hosts.now) (parse_document text.now) found.items) }
{
    match document_of(alloc, text) {
        Ok(file) => hosts_in(alloc, hosts, &file),
        Err(ConfigFault::OutOfMemory) => Err(AllocError),
        Err(_) => Ok(Vec::new(alloc)),
    }
}
