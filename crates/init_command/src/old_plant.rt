//! The plant that came before: what of it a new one keeps.

use crate::new_station::Habits;
use crate::place::{StationHost, StationPlace};
use ballots::Member;
use command_ends::Fault;
use configuration::{Config, ConfigFault, ConfigInput, NoLookUp, read_config};
use inputs::text_of;
use std::alloc::{AllocError, Global};
use toml::{Table, Value};
use wire::Address;

/// The name of the file that has its configuration.
const NAME: &str = "station.toml";

/// The configuration of a plant, and its text as TOML, which has the names of its hosts.
#[derive(Drop)]
pub struct OldPlant {
    pub config: Config,
    file: Table,
}

/// The document of a text.
fn document_of(alloc: Global, bytes: &[u8]) -> Result<Table, ConfigFault> {
    let Some(text) = text_of(bytes) else {
        return Err(ConfigFault::NotToml);
    };
    toml::table_from_str(alloc, text).map_err(|error| {
        if error.is_memory() {
            ConfigFault::OutOfMemory
        } else {
            ConfigFault::NotToml
        }
    })
}

/// The name of the host of an entry, where it is the one of this member and has one.
fn name_of(entry: &Value, member: Member) -> Option<&str> {
    let keys = entry.as_table()?;
    if keys.get("member")?.as_integer()? != i64::from(member.get()) {
        return None;
    }
    keys.get("host")?.as_str()
}

/// The name of the host of a member in a document, if it has one.
fn name_in(file: &Table, member: Member) -> Option<&str> {
    let entries = file.get("station")?.as_array()?;
    for entry in entries.iter() {
        let name = name_of(entry, member);
        if name.is_some() {
            return name;
        }
    }
    None
}

/// Where a member listens: a name stays a name.
fn place_in<'a>(file: &'a Table, address: &Address) -> StationPlace<'a> {
    let host = match name_in(file, address.member) {
        Some(name) => StationHost::Name(name),
        None => StationHost::Ip(address.ip),
    };
    let port = address.port;
    StationPlace { host, port }
}

impl OldPlant {
    /// The plant of a configuration. No host is looked up.
    pub fn read(alloc: Global, bytes: &[u8]) -> Result<OldPlant, Fault<'static>> {
        let file = ConfigInput {
            path: NAME,
            input: bytes,
        };
        let config = read_config(alloc, &NoLookUp, file)?;
        let file = document_of(alloc, bytes)?;
        Ok(OldPlant { config, file })
    }

    /// Where its stations listen, in order of members.
    pub fn places(&self, alloc: Global) -> Result<Vec<StationPlace<'_>>, AllocError> {
        let mut places = Vec::with_capacity(alloc, self.config.stations.len())?;
        for address in self.config.stations.iter() {
            places.push(place_in(&self.file, address))?;
        }
        Ok(places)
    }

    /// How it works.
    pub fn habits(&self) -> Habits {
        Habits::of(&self.config)
    }
}
