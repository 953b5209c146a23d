//! The faults of a configuration, not the first alone.

ghost use Rattle.std.specs.Prelude.{◌≡◌, [], ◌∷◌, IfOk, OnOk};
ghost use Rattle.protocol.specs.Limits.{most_members};
ghost use Rattle.toml.specs.Parse.{parse_document};
ghost use Rattle.toml.specs.View.{table_view};
ghost use Rattle.configuration.specs.Keys.{number_at, text_at, folders_in, catches_up_in, wire_in};
ghost use Rattle.configuration.specs.Faults.{fault_of, noted, stations_in, absent, GivesOrNoMemory, with_stations_in, faults_in, all_faults};
ghost use Rattle.configuration.specs.declared.fault.ConfigKey.TheVariants.{Circuit, Member as MemberKey};

use crate::config::document_of;
use crate::fault::{ConfigFault, ConfigKey};
use crate::keys::{catches_up_in, circuit_at, entries_at, folders_in, member_at, text_at, wire_in};
use crate::stations::read_stations;
use ballots::Member;
use std::alloc::{AllocError, Global};
use toml::Table;
use wire::Address;

/// Notes a fault, if there is one.
#[tactic(auto, unfolding(crate::specs::Faults::noted))]
fn note(faults: &mut Vec<ConfigFault>, fault: Option<ConfigFault>) -> Result<(), AllocError>
    ensures { OnOk result (faults.new.items ≡ noted faults.old.items fault) }
{
    match fault {
        Some(fault) => Ok(faults.push(fault)?),
        None => Ok(()),
    }
}

/// The fault at the circuit's number.
fn circuit_fault(file: &Table) -> Option<ConfigFault>
    ensures { result ≡ fault_of (number_at Circuit 0 65535 (table_view file.now)) }
{
    match circuit_at(file) {
        Ok(_) => None,
        Err(fault) => Some(fault),
    }
}

/// The fault at a path.
fn path_fault(file: &Table, key: ConfigKey) -> Option<ConfigFault>
    ensures { result ≡ fault_of (text_at key (table_view file.now)) }
{
    match text_at(file, key) {
        Ok(_) => None,
        Err(fault) => Some(fault),
    }
}

/// The first fault at the folders.
fn folders_fault(file: &Table) -> Option<ConfigFault>
    ensures { result ≡ fault_of (folders_in (table_view file.now)) }
{
    match folders_in(file) {
        Ok(_) => None,
        Err(fault) => Some(fault),
    }
}

/// The fault at catching up.
fn catch_up_fault(file: &Table) -> Option<ConfigFault>
    ensures { result ≡ fault_of (catches_up_in (table_view file.now)) }
{
    match catches_up_in(file) {
        Ok(_) => None,
        Err(fault) => Some(fault),
    }
}

/// The fault at the wire.
fn wire_fault(file: &Table) -> Option<ConfigFault>
    ensures { result ≡ fault_of (wire_in (table_view file.now)) }
{
    match wire_in(file) {
        Ok(_) => None,
        Err(fault) => Some(fault),
    }
}

/// The stations, or the first fault among them.
#[tactic(auto, unfolding(crate::specs::Faults::stations_in))]
fn stations_in(
    alloc: Global,
    found: &[Option<[u8; 4]>],
    file: &Table,
) -> Result<Vec<Address>, ConfigFault>
    ensures { GivesOrNoMemory result (λ stations. stations.items) (stations_in found.now (table_view file.now)) }
{
    let entries = entries_at(file)?;
    read_stations(alloc, found, entries)
}

/// That this member is none of so many stations, where it was read.
#[tactic(auto, unfolding(crate::specs::Faults::absent))]
fn absent(member: Result<Member, ConfigFault>, count: usize) -> Option<ConfigFault>
    ensures { result ≡ absent member count }
{
    match member {
        Ok(member) if usize::from(member.get()) > count => {
            Some(ConfigFault::OutOfRange(ConfigKey::Member))
        }
        _ => None,
    }
}

/// Notes the fault of the stations: the first among them, or that the own member is none of them.
#[tactic(auto, unfolding(crate::specs::Faults::with_stations))]
fn note_stations(
    alloc: Global,
    found: &[Option<[u8; 4]>],
    file: &Table,
    faults: &mut Vec<ConfigFault>,
) -> Result<(), AllocError>
    ensures { OnOk result (faults.new.items ≡ with_stations_in faults.old.items found.now (table_view file.now)) }
{
    match stations_in(alloc, found, file) {
        Ok(stations) => note(faults, absent(member_at(file), stations.len())),
        Err(ConfigFault::OutOfMemory) => Err(AllocError),
        Err(fault) => note(faults, Some(fault)),
    }
}

/// The fault at the own member.
fn member_fault(file: &Table) -> Option<ConfigFault>
    ensures { result ≡ fault_of (number_at MemberKey 1 most_members (table_view file.now)) }
{
    match member_at(file) {
        Ok(_) => None,
        Err(fault) => Some(fault),
    }
}

/// The faults of a document, in the order of its keys.
#[tactic(auto, unfolding(crate::specs::Faults::faults_in))]
fn faults_in(
    alloc: Global,
    found: &[Option<[u8; 4]>],
    file: &Table,
) -> Result<Vec<ConfigFault>, AllocError>
    ensures { IfOk result (λ v. v.items ≡ faults_in found.now (table_view file.now)) }
{
    let mut faults = Vec::new(alloc);
    note(&mut faults, circuit_fault(file))?;
    note(&mut faults, member_fault(file))?;
    note(&mut faults, path_fault(file, ConfigKey::Table))?;
    note(&mut faults, path_fault(file, ConfigKey::Widths))?;
    note(&mut faults, path_fault(file, ConfigKey::Rows))?;
    note(&mut faults, folders_fault(file))?;
    note(&mut faults, catch_up_fault(file))?;
    note(&mut faults, wire_fault(file))?;
    note_stations(alloc, found, file, &mut faults)?;
    Ok(faults)
}

/// One fault alone.
fn alone(alloc: Global, fault: ConfigFault) -> Result<Vec<ConfigFault>, AllocError>
    ensures { IfOk result (λ v. v.items ≡ fault ∷ []) }
{
    let mut faults = Vec::new(alloc);
    faults.push(fault)?;
    Ok(faults)
}

/// The faults of a configuration's text, where this was found for the hosts of its stations, entry by entry: that it is not TOML; or that of
/// each key, the first of the folders, of catching up and of the wire, and the first among the stations, in the order in which they are
/// read.
#[tactic(auto, unfolding(crate::specs::Faults::all_faults))]
pub fn faults_of(
    alloc: Global,
    text: &str,
    found: &[Option<[u8; 4]>],
) -> Result<Vec<ConfigFault>, AllocError>
    ensures { IfOk result (λ v. v.items ≡ all_faults found.now (parse_document text.now)) }
{
    match document_of(alloc, text) {
        Ok(file) => faults_in(alloc, found, &file),
        Err(ConfigFault::OutOfMemory) => Err(AllocError),
        Err(fault) => alone(alloc, fault),
    }
}
