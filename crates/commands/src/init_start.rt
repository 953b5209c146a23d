//! The command `init`.

use crate::console::Console;
use crate::init_inputs::{
    before_at, is_one_folder, keys_at, keys_if_any, new_keys, old_plant_at, path_in, table_at,
    widths_at,
};
use crate::new_files::HostFolder;
use ballots::Member;
use circuit_keys::SharedKeys;
use command_ends::{End, end_with};
use command_line::{InitPlan, KeyAsked, Members, RenewPlan};
use init_command::{
    Contents, FOLDER_MODE, Habits, InitFault, NewStation, OldPlant, PlantFile, PlantOrder,
    StationPlace, Thing, check_member, circuit_key, key_text, make_one, make_plant, places_of,
    station_text,
};
use rows_files::RowFiles;
use std::alloc::{AllocError, Global};
use std::io::{Read, Write};
use streams::hand_on;

/// What plants are made of, as it was read; each plant has a configuration of its own beside.
#[derive(Drop)]
struct Material<'a> {
    /// Whose plants are made.
    members: Members,
    places: Vec<StationPlace<'a>>,
    table: Vec<u8>,
    widths: Vec<u8>,
    /// The key of the circuit, if it has one.
    keys: Option<SharedKeys>,
    habits: Habits,
    /// What went out at the plant that came before.
    before: Option<String>,
}

/// Where plants are made, of which circuit, and which key is asked for.
#[derive(Clone, Copy)]
struct Target<'a> {
    folder: &'a str,
    circuit: u16,
    key: KeyAsked<'a>,
}

/// A plant that is to be made: whose it is, and where.
#[derive(Drop)]
struct Plant {
    member: Member,
    folder: String,
}

/// Tests that the member whose plant is made is one of so many stations.
fn check_members(members: Members, stations: usize) -> Result<(), InitFault> {
    match members {
        Members::One(member) => check_member(member, stations),
        Members::All => Ok(()),
    }
}

/// The key in the file that a line names, if it names one.
fn named_keys(rt: &HostRuntime, key: KeyAsked<'_>) -> Result<Option<SharedKeys>, InitFault> {
    match key {
        KeyAsked::File(path) => Ok(Some(keys_at(rt, path)?)),
        KeyAsked::Same | KeyAsked::New => Ok(None),
    }
}

/// What plants are made of that nothing came before.
fn fresh_material<'a>(rt: &HostRuntime, plan: &InitPlan<'a>) -> Result<Material<'a>, InitFault> {
    let places = places_of(rt.alloc(), plan.stations)?;
    check_members(plan.members, places.len())?;
    Ok(Material {
        members: plan.members,
        places,
        table: table_at(rt, plan.table)?,
        widths: widths_at(rt, plan.widths)?,
        keys: named_keys(rt, plan.key)?,
        habits: Habits::USUAL,
        before: None,
    })
}

/// The path that a line names, or else that of an old plant in its folder.
fn path_or_old(
    alloc: Global,
    named: Option<&str>,
    folder: &str,
    old: &str,
) -> Result<String, AllocError> {
    match named {
        Some(path) => path.to_string(alloc),
        None => path_in(alloc, folder, old),
    }
}

/// The key that a line names, or else that of the old plant in a folder.
fn keys_or_old(
    rt: &HostRuntime,
    key: KeyAsked<'_>,
    folder: &str,
    old: &OldPlant,
) -> Result<Option<SharedKeys>, InitFault> {
    match (key, &old.config.key) {
        (KeyAsked::Same, Some(path)) => {
            let path = path_in(rt.alloc(), folder, path.as_str())?;
            Ok(Some(keys_at(rt, path.as_str())?))
        }
        (key, _) => named_keys(rt, key),
    }
}

/// A plant that came before, and where the stations listen now, if a line lists that.
#[derive(Drop)]
struct Predecessor {
    plant: OldPlant,
    stations: Option<String>,
}

/// Where the stations listen: as a line lists them, or else as at the old plant.
fn places_now(alloc: Global, old: &Predecessor) -> Result<Vec<StationPlace<'_>>, InitFault> {
    match &old.stations {
        Some(list) => places_of(alloc, list.as_str()),
        None => Ok(old.plant.places(alloc)?),
    }
}

/// What plants are made of that an old one came before.
fn old_material<'a>(
    rt: &HostRuntime,
    plan: &RenewPlan<'_>,
    predecessor: &'a Predecessor,
) -> Result<Material<'a>, InitFault> {
    let alloc = rt.alloc();
    let folder = plan.old;
    let places = places_now(alloc, predecessor)?;
    let old = &predecessor.plant;
    let members = plan.members.unwrap_or(Members::One(old.config.member));
    check_members(members, places.len())?;
    let table = path_or_old(alloc, plan.table, folder, old.config.table.as_str())?;
    let widths = path_or_old(alloc, plan.widths, folder, old.config.widths.as_str())?;
    Ok(Material {
        members,
        places,
        table: table_at(rt, table.as_str())?,
        widths: widths_at(rt, widths.as_str())?,
        keys: keys_or_old(rt, plan.key, folder, old)?,
        habits: old.habits(),
        before: before_at(rt, folder, old)?,
    })
}

/// The plant of a member in a folder of its own, within the one that is named.
fn plant_within(alloc: Global, folder: &str, member: Member) -> Result<Plant, AllocError> {
    let number = member.get();
    let folder = format!(in alloc; "{folder}/plant{number}")?;
    Ok(Plant { member, folder })
}

/// The plants of all members of a circuit of so many stations.
fn plants_of_all(alloc: Global, folder: &str, stations: usize) -> Result<Vec<Plant>, AllocError> {
    let mut plants = Vec::new(alloc);
    for number in 1..16u8 {
        if usize::from(number) <= stations
            && let Some(member) = Member::new(number)
        {
            plants.push(plant_within(alloc, folder, member)?)?;
        }
    }
    Ok(plants)
}

/// The plants that are to be made, in order of members.
fn plants_of(
    alloc: Global,
    folder: &str,
    material: &Material<'_>,
) -> Result<Vec<Plant>, AllocError> {
    match material.members {
        Members::All => plants_of_all(alloc, folder, material.places.len()),
        Members::One(member) => {
            let mut plants = Vec::new(alloc);
            let folder = folder.to_string(alloc)?;
            plants.push(Plant { member, folder })?;
            Ok(plants)
        }
    }
}

/// The keys that plants have already.
fn keys_found(rt: &HostRuntime, plants: &[Plant]) -> Result<Vec<Option<SharedKeys>>, InitFault> {
    let alloc = rt.alloc();
    let mut found = Vec::with_capacity(alloc, plants.len())?;
    for plant in plants {
        let path = path_in(alloc, plant.folder.as_str(), PlantFile::Key.name())?;
        found.push(keys_if_any(rt, path.as_str())?)?;
    }
    Ok(found)
}

/// The key of a circuit: the one that is asked for or that its plants have already, and else one that is drawn; none where none is wanted.
fn keys_for(
    rt: &HostRuntime,
    key: KeyAsked<'_>,
    asked: Option<SharedKeys>,
    plants: &[Plant],
) -> Result<Option<SharedKeys>, InitFault> {
    if asked.is_none() && !matches!(key, KeyAsked::New) {
        return Ok(None);
    }
    let found = keys_found(rt, plants)?;
    match circuit_key(asked, &found)? {
        Some(keys) => Ok(Some(keys)),
        None => Ok(Some(new_keys(rt)?)),
    }
}

/// The text of the file of the key, if there is one.
fn key_bytes(alloc: Global, keys: &Option<SharedKeys>) -> Result<Option<Vec<u8>>, InitFault> {
    match keys {
        Some(keys) => Ok(Some(key_text(alloc, keys)?)),
        None => Ok(None),
    }
}

/// The configurations of plants of a circuit of this number, in their order.
fn configurations(
    alloc: Global,
    circuit: u16,
    material: &Material<'_>,
    plants: &[Plant],
) -> Result<Vec<String>, InitFault> {
    let mut texts = Vec::with_capacity(alloc, plants.len())?;
    for plant in plants {
        let station = NewStation {
            circuit,
            member: plant.member,
            places: material.places.as_slice(),
            sealed: material.keys.is_some(),
            habits: material.habits,
        };
        texts.push(station_text(alloc, &station)?)?;
    }
    Ok(texts)
}

/// Makes a folder, and tells of it.
fn make_folder<W: Write>(rt: &HostRuntime, path: &str, out: &mut W) -> Result<(), InitFault> {
    let thing = Thing {
        path: path.to_string(rt.alloc())?,
        mode: FOLDER_MODE,
        bytes: None,
    };
    make_one(thing, &mut HostFolder { rt }, out)
}

/// Bytes that are lent, where there are some.
fn lent(bytes: &Option<Vec<u8>>) -> Option<&[u8]> {
    match bytes {
        Some(bytes) => Some(bytes.as_slice()),
        None => None,
    }
}

/// A text that is lent, where there is one.
fn lent_text(text: &Option<String>) -> Option<&str> {
    match text {
        Some(text) => Some(text.as_str()),
        None => None,
    }
}

/// What is made beside what was read: the plants, each with its configuration, and the text of the file of the key.
#[derive(Drop)]
struct Making {
    plants: Vec<Plant>,
    texts: Vec<String>,
    key: Option<Vec<u8>>,
}

/// Makes the plants, and tells of all that is made.
fn make_plants<W: Write>(
    rt: &HostRuntime,
    material: &Material<'_>,
    making: &Making,
    out: &mut W,
) -> Result<(), InitFault> {
    for (plant, text) in making.plants.iter().zip(making.texts.iter()) {
        let folder = plant.folder.as_str();
        make_folder(rt, folder, out)?;
        let contents = Contents {
            table: material.table.as_slice(),
            widths: material.widths.as_slice(),
            key: lent(&making.key),
            before: lent_text(&material.before),
            configuration: text.as_str(),
        };
        let order = PlantOrder {
            alloc: rt.alloc(),
            folder,
            contents,
        };
        make_plant(&order, &mut HostFolder { rt }, out)?;
    }
    Ok(())
}

/// Makes the plants of a target of what was read. Nothing is made before all is known that is to be made.
fn make_of<W: Write>(
    rt: &HostRuntime,
    target: &Target<'_>,
    mut material: Material<'_>,
    out: &mut W,
) -> Result<(), InitFault> {
    let alloc = rt.alloc();
    let plants = plants_of(alloc, target.folder, &material)?;
    material.keys = keys_for(rt, target.key, material.keys, &plants)?;
    let texts = configurations(alloc, target.circuit, &material, &plants)?;
    let key = key_bytes(alloc, &material.keys)?;
    let making = Making { plants, texts, key };
    if material.members == Members::All {
        make_folder(rt, target.folder, out)?;
    }
    make_plants(rt, &material, &making, out)?;
    hand_on(out)?;
    Ok(())
}

/// Makes the plants of a line that names no old plant.
fn init<W: Write>(rt: &HostRuntime, plan: &InitPlan<'_>, out: &mut W) -> Result<(), InitFault> {
    let material = fresh_material(rt, plan)?;
    let target = Target {
        folder: plan.folder,
        circuit: plan.circuit,
        key: plan.key,
    };
    make_of(rt, &target, material, out)
}

/// The plant that came before, of another circuit and in another folder.
fn old_plant(rt: &HostRuntime, plan: &RenewPlan<'_>) -> Result<OldPlant, InitFault> {
    let old = old_plant_at(rt, plan.old)?;
    if old.config.circuit == plan.circuit {
        return Err(InitFault::OldCircuit(plan.circuit));
    }
    if is_one_folder(rt, plan.folder, plan.old) {
        return Err(InitFault::OldFolder);
    }
    Ok(old)
}

/// A text of its own, where there is one.
fn copied(alloc: Global, text: Option<&str>) -> Result<Option<String>, AllocError> {
    match text {
        Some(text) => Ok(Some(text.to_string(alloc)?)),
        None => Ok(None),
    }
}

/// Makes the plants of a line that names an old one.
fn renew<W: Write>(rt: &HostRuntime, plan: &RenewPlan<'_>, out: &mut W) -> Result<(), InitFault> {
    let old = Predecessor {
        plant: old_plant(rt, plan)?,
        stations: copied(rt.alloc(), plan.stations)?,
    };
    let material = old_material(rt, plan, &old)?;
    let target = Target {
        folder: plan.folder,
        circuit: plan.circuit,
        key: plan.key,
    };
    make_of(rt, &target, material, out)
}

/// Makes the plants that a line asks for, and tells of all that is made.
pub(crate) fn run_init<F: RowFiles, R: Read + Drop, W: Write + Drop, E: Write + Drop>(
    console: &mut Console<'_, F, R, W, E>,
    plan: &InitPlan<'_>,
) -> End {
    let rt = console.rt;
    let Console { out, err, .. } = console;
    end_with(init(rt, plan, out), err)
}

/// Makes the plants of a new circuit after that of an old plant, and tells of all that is made.
pub(crate) fn run_renew<F: RowFiles, R: Read + Drop, W: Write + Drop, E: Write + Drop>(
    console: &mut Console<'_, F, R, W, E>,
    plan: &RenewPlan<'_>,
) -> End {
    let rt = console.rt;
    let Console { out, err, .. } = console;
    end_with(renew(rt, plan, out), err)
}
