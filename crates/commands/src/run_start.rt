//! The command `run`.

ghost use Rattle.std.specs.Prelude.{◌≡◌, [], Ok, None, IfOk, IfErr, IfSome, IfNone, IsSome, OnOk, false, length};
ghost use Rattle.arguments.specs.declared.asked.Asked.TheVariants.{Run};
ghost use Rattle.configuration.specs.Reading.{file_of};
ghost use Rattle.configuration.specs.Stations.{IsCircuit};
ghost use Rattle.rows_files.specs.Knowing.{KnowsAll};
ghost use Rattle.commands.specs.Ends.{AsksForFile, StartsAsked};
ghost use Rattle.commands.specs.Starts.{HasRun, HasRunBy, MayStart, WereClosed};

use crate::create_start::layout_number;
use crate::first_line::{saved_of, tell_first};
use crate::host::{Host, ThisHost};
use crate::keys::keys_of;
use crate::manager_text::tell_ready;
use crate::plant_start::{OpenPlant, PlantFault, open_plant};
use crate::start_up::{Ground, Launch, Started, start};
use crate::status_file::HostStatus;
use code_table::CodeTable;
use command_ends::{End, Fault, end_with};
use command_line::RunPlan;
use configuration::{Config, ConfigInput, Resolver, read_config};
use driver::Machine;
use folders::{Folders, NoFolders};
use gone_out::{Known, Origin};
use host_process::{Manager, TimedLines};
use log_terms::Loudness;
use plant_commands::{owner_of, test_places};
use plant_status::StationId;
use rows_files::{RefusedRows, RowFiles, close_rows};
use rows_saved::{Grouped, Rows};
use run_command::{Terms, run_station};
use station::Station;
use std::alloc::Global;
use std::io::Write;
use wire::{Address, Wire};

/// The table by which texts become tapes that are offered in a plant, where they may be.
fn texts_by(plant: &Option<OpenPlant<'_>>, table: CodeTable) -> Option<CodeTable> {
    match plant {
        Some(plant) if plant.takes_texts => Some(table),
        _ => None,
    }
}

/// Whether files come into the offers of a plant only by being renamed.
fn is_renamed(plant: &Option<OpenPlant<'_>>) -> bool
    ensures some { IfSome plant.now (λ p. result ≡ p.renamed) }
    ensures none { IfNone plant.now (result ≡ false) }
{
    match plant {
        Some(plant) => plant.renamed,
        None => false,
    }
}

/// The station of a configuration, as the file of what went out at it names it.
fn origin_of(config: &Config) -> Origin
    requires { IsCircuit config.now.member config.now.stations.items }
    ensures circuit { result.circuit ≡ config.now.circuit }
    ensures member { result.member ≡ config.now.member }
    ensures count { result.count ≡ length config.now.stations.items }
{
    Origin {
        circuit: config.circuit,
        member: config.member,
        count: config.stations.len() as u8,
    }
}

/// What rows a station has at its start, where no save waits. One without a plant only votes, and no row is read.
fn known_at<F: RowFiles>(
    alloc: Global,
    row_files: &F,
    plant: &Option<OpenPlant<'_>>,
    rows: &mut Grouped<F::Rows>,
) -> Result<Option<Known>, RefusedRows>
    requires settled { rows.old.waits ≡ [] }
    ensures none { IfNone plant.now (result ≡ Ok None) }
    ensures some { IfSome plant.now (λ _. IfOk result IsSome) }
    ensures known { F.Rows.kept rows.new.rows → IfOk result (λ any. IfSome any (KnowsAll (F.Rows.saved rows.old.rows))) }
    ensures refused { IfErr result (F.refuses row_files.now) }
{
    if plant.is_none() {
        return Ok(None);
    }
    match rows.rows_mut() {
        Some(rows) => Ok(Some(row_files.known(alloc, rows)?)),
        None => unreachable!(),
    }
}

/// Which station it is that was started, of an origin.
fn id_of<R: Rows>(own: &Origin, station: &Station<R>) -> StationId {
    StationId {
        member: own.member.get(),
        count: own.count,
        circuit: own.circuit,
        layout: layout_number(station.rows().version()),
    }
}

/// The status file of a plant, if it has one, which no other station replaces, and who wants to be told what it says.
fn status_of<'r>(
    rt: &'r HostRuntime,
    plant: &mut Option<OpenPlant<'_>>,
    owner: String,
    manager: Option<Manager>,
) -> HostStatus<'r> {
    let path = match plant {
        Some(plant) => plant.status.take(),
        None => None,
    };
    HostStatus {
        rt,
        path,
        manager,
        owner,
    }
}

/// Where the station of a configuration listens.
fn address_of(config: &Config) -> Option<Address> {
    for address in config.stations.as_slice() {
        if address.member == config.member {
            return Some(*address);
        }
    }
    None
}

/// Runs a station over the folders of its plant; after a good end its rows are closed. The folders are held until then, so that whoever finds
/// them free finds the rows closed.
fn run_over<F: RowFiles, N: Wire + Drop, P: Folders + Drop, E: Write>(
    row_files: &F,
    mut machine: Machine<Grouped<F::Rows>, N, P>,
    terms: Terms<HostStatus<'_>>,
    err: &mut E,
) -> Result<(), Fault<'static>>
    ensures { OnOk result (WereClosed F.closes row_files.now) }
{
    let outcome = run_station(&mut machine, terms, err);
    let rows = machine.station.into_rows().into_rows();
    close_rows(row_files, rows, outcome)?;
    drop(machine.outside);
    Ok(())
}

/// A station that is to be started, the folders of its plant, if it has one, and how much it tells.
#[derive(Drop)]
struct Running<'a, 'r> {
    launch: Launch<'a>,
    plant: Option<OpenPlant<'r>>,
    loudness: Loudness,
}

/// Starts a station, and runs it over the folders of its plant; one that has none only votes.
fn run_from<'a, F: RowFiles, E: Write>(
    ground: &Ground<'_, ThisHost<'_>, F>,
    running: Running<'a, '_>,
    err: &mut E,
) -> Result<(), Fault<'a>>
    requires { MayStart (F.may_make ground.now.row_files.now) running.launch.config.now running.launch.create }
    ensures { OnOk result (HasRunBy F.leaves F.opens F.Rows.version F.closes ground.now.row_files.now (file_of running.entry.launch.config.now) running.entry.launch.create) }
{
    let Running {
        launch,
        mut plant,
        loudness,
    } = running;
    let Ground { rt, row_files, .. } = *ground;
    let config = launch.config;
    let Started {
        mut station,
        wire,
        offer: _,
        table,
    } = start(ground, launch)?;
    let alloc = rt.alloc();
    let known = known_at(alloc, row_files, &plant, station.rows_mut())?;
    let own = origin_of(config);
    let id = id_of(&own, &station);
    if loudness != Loudness::Faults {
        tell_first(id, address_of(config).as_ref(), saved_of(&known), err);
    }
    let owner = owner_of(alloc, config)?;
    let manager = Manager::of(rt);
    tell_ready(alloc, &manager, id);
    let file = status_of(rt, &mut plant, owner, manager);
    let terms = Terms {
        status: file.path.is_some().then_some(id),
        file,
        texts: texts_by(&plant, table),
        renamed: is_renamed(&plant),
        catches_up: config.catches_up,
        own,
        known,
        loudness,
    };
    match plant {
        Some(plant) => {
            let machine = Machine {
                alloc,
                station,
                wire,
                outside: plant.folders,
            };
            Ok(run_over(row_files, machine, terms, err)?)
        }
        None => {
            let machine = Machine {
                alloc,
                station,
                wire,
                outside: NoFolders,
            };
            Ok(run_over(row_files, machine, terms, err)?)
        }
    }
}

/// Reads the keys that a configuration names, and runs its station over the folders of its plant. Its row file is made where the plan
/// says so, and only there.
fn run_at<'a, F: RowFiles, E: Write>(
    ground: &Ground<'_, ThisHost<'_>, F>,
    plan: RunPlan<'_>,
    config: &'a Config,
    err: &mut E,
) -> Result<(), PlantFault<'a>>
    requires { MayStart (F.may_make ground.now.row_files.now) config.now plan.create }
    ensures { OnOk result (HasRunBy F.leaves F.opens F.Rows.version F.closes ground.now.row_files.now (file_of config.now) plan.entry.create) }
{
    let rt = ground.rt;
    let keys = keys_of(rt, config)?;
    let placed = test_places(rt, plan.config, config)?;
    let plant = open_plant(rt, placed, config)?;
    let launch = Launch {
        config,
        placed,
        keys,
        create: plan.create,
        offer: None,
    };
    let running = Running {
        launch,
        plant,
        loudness: plan.log.loudness,
    };
    run_from(ground, running, err)?;
    Ok(())
}

/// Reads the configuration at a path, runs its station, and tells the fault that ends it.
fn run_to_the_end<F: RowFiles, E: Write>(
    ground: &Ground<'_, ThisHost<'_>, F>,
    plan: RunPlan<'_>,
    err: &mut E,
) -> End
    requires asked { AsksForFile (Run plan) → F.may_make ground.now.row_files.now }
    ensures { StartsAsked (Run plan.entry) (HasRun F.leaves F.opens F.Rows.version F.closes ground.now.row_files.now) result }
{
    let rt = ground.rt;
    let file = ConfigInput {
        path: plan.config,
        input: ground.host.open(plan.config),
    };
    let read = read_config(rt.alloc(), &Resolver { net: rt }, file);
    match &read {
        Ok(config) => end_with(run_at(ground, plan, config, err), err),
        Err(fault) => fault.tell(err),
    }
}

/// Runs the station of the configuration at a path until it is stopped, with its rows saved in one of the files.
///
/// What it starts from is looked for in this order, and the first fault ends it: the configuration, the file of keys, where its files and
/// folders lie and who works with these, the code table, the widths, the saved rows, the socket. Once it has all of that, a service manager
/// that the environment names is told that it is up. After a good end the rows are closed.
pub fn run<F: RowFiles, E: Write>(
    ground: &Ground<'_, ThisHost<'_>, F>,
    plan: RunPlan<'_>,
    err: &mut E,
) -> End
    requires asked { AsksForFile (Run plan) → F.may_make ground.now.row_files.now }
    ensures { StartsAsked (Run plan.entry) (HasRun F.leaves F.opens F.Rows.version F.closes ground.now.row_files.now) result }
{
    if plan.log.times {
        let mut err = TimedLines::new(ground.rt.alloc(), ground.rt, err);
        run_to_the_end(ground, plan, &mut err)
    } else {
        run_to_the_end(ground, plan, err)
    }
}
