//! The configuration of a new station, which is read back before it is handed out.

ghost use Rattle.std.specs.Prelude.{◌≡◌, IfOk, IsTrue, IsSomeAnd, Some, codes, option_map, string_bytes};
ghost use Rattle.init_command.specs.Asked.{ip_taken, IsPlace, ArePlaces, key_asked, NamesFiles, WorksAs, SaysAsked, IsReadAsAsked};

use crate::asked_hosts::AskedHosts;
use crate::cause::InitFault;
use crate::configuration_text::text_of;
use crate::new_station::{Habits, NewStation};
use crate::place::{StationHost, StationPlace};
use crate::plant_file::PlantFile;
use crate::same::{is_flag, is_text};
use ballots::Member;
use configuration::{Config, ConfigInput, WorkFolders, read_config};
use std::alloc::Global;
use wire::Address;

/// The IP address for which the host of a place is taken: a name is taken for an address that tells the member.
fn ip_taken(place: &StationPlace<'_>, member: Member) -> [u8; 4]
    ensures { result ≡ ip_taken place.now.host member }
{
    match place.host {
        StationHost::Ip(ip) => ip,
        StationHost::Name(_) => [0, 0, 0, member.get()],
    }
}

/// Whether an address is the one that was asked for.
fn is_place(address: &Address, place: &StationPlace<'_>) -> bool
    ensures { IsTrue result → IsPlace address.now place.now }
{
    address.ip == ip_taken(place, address.member) && address.port == place.port
}

/// Whether these addresses are those that were asked for, one by one.
fn are_places(addresses: &[Address], places: &[StationPlace<'_>]) -> bool
    ensures { IsTrue result → ArePlaces addresses.now places.now }
{
    let [address, addresses @ ..] = addresses else {
        return places.is_empty();
    };
    let [place, places @ ..] = places else {
        return false;
    };
    if !is_place(address, place) {
        return false;
    }
    are_places(addresses, places)
}

/// Whether these are the folders of a plant that works so.
fn are_folders(folders: &WorkFolders, habits: &Habits) -> bool
    ensures { IsTrue result → WorksAs habits.now folders.now }
{
    if !is_text(folders.offers.as_str(), "offers") {
        return false;
    }
    if !is_text(folders.releases.as_str(), "releases") {
        return false;
    }
    if !is_flag(folders.text, habits.text) {
        return false;
    }
    if !is_flag(folders.renamed, habits.renamed) {
        return false;
    }
    is_status(&folders.status)
}

/// Whether it is the path of the status file.
fn is_status(path: &Option<String>) -> bool
    ensures { IsTrue result → option_map string_bytes path.now ≡ Some (codes "status.txt") }
{
    match path {
        Some(path) => is_text(path.as_str(), "status.txt"),
        None => false,
    }
}

/// Whether it is the path of the file of the key of a sealed wire, or none of a plain one.
fn is_wire(key: &Option<String>, sealed: bool) -> bool
    ensures { IsTrue result → option_map string_bytes key.now ≡ key_asked sealed }
{
    match key {
        Some(key) => sealed && is_text(key.as_str(), "circuit.key"),
        None => !sealed,
    }
}

/// Whether the folders are there, and those of a plant that works so.
fn has_folders(folders: &Option<WorkFolders>, habits: &Habits) -> bool
    ensures { IsTrue result → IsSomeAnd folders.now (WorksAs habits.now) }
{
    match folders {
        Some(folders) => are_folders(folders, habits),
        None => false,
    }
}

/// Whether a configuration names the files of a plant.
fn has_files(config: &Config) -> bool
    ensures { IsTrue result → NamesFiles config.now }
{
    is_text(config.table.as_str(), "codes.toml")
        && is_text(config.widths.as_str(), "widths.toml")
        && is_text(config.rows.as_str(), "station.db")
}

/// Whether a configuration has the stations that were asked for.
fn has_places(config: &Config, station: &NewStation<'_>) -> bool
    ensures { IsTrue result → ArePlaces config.now.stations.items station.now.places.now }
{
    are_places(config.stations.as_slice(), station.places)
}

/// Whether a configuration says what was asked.
fn says_asked(config: &Config, station: &NewStation<'_>) -> bool
    ensures { IsTrue result → SaysAsked station.now config.now }
{
    if config.circuit != station.circuit {
        return false;
    }
    if config.member.get() != station.member.get() {
        return false;
    }
    if !has_files(config) {
        return false;
    }
    if !has_folders(&config.folders, &station.habits) {
        return false;
    }
    if !is_flag(config.catches_up, station.habits.catches_up) {
        return false;
    }
    if !is_wire(&config.key, station.sealed) {
        return false;
    }
    has_places(config, station)
}

/// Reads the text of a configuration back, as `run` will read it, and tests that it says what was asked.
fn read_back(alloc: Global, station: &NewStation<'_>, text: &str) -> Result<(), InitFault>
    ensures { IfOk result (λ _. IsReadAsAsked station.now text.now) }
{
    let hosts = AskedHosts {
        places: station.places,
    };
    let file = ConfigInput {
        path: PlantFile::Configuration.name(),
        input: text.as_bytes(),
    };
    let config = read_config(alloc, &hosts, file)?;
    if says_asked(&config, station) {
        Ok(())
    } else {
        Err(InitFault::Unlike)
    }
}

/// The text of the configuration of a new station. What is handed out was read back, and says what was asked.
pub fn station_text(alloc: Global, station: &NewStation<'_>) -> Result<String, InitFault>
    ensures { IfOk result (λ text. IsReadAsAsked station.now (string_bytes text)) }
{
    let text = text_of(alloc, station)?;
    read_back(alloc, station, text.as_str())?;
    Ok(text)
}
