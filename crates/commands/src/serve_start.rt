//! The command `serve`.

ghost use Rattle.std.specs.Prelude.{OnOk};
ghost use Rattle.arguments.specs.declared.asked.Asked.TheVariants.{Serve};
ghost use Rattle.configuration.specs.Reading.{file_of};
ghost use Rattle.commands.specs.Ends.{AsksForFile, StartsAsked};
ghost use Rattle.commands.specs.Starts.{HasRun, HasRunBy, MayStart};

use crate::host::{Host, ThisHost};
use crate::keys::keys_of;
use crate::start_up::{Ground, Launch, Started, start};
use command_ends::{End, Fault, end_with};
use command_line::Plan;
use configuration::{Config, ConfigInput, Resolver, read_config};
use driver::Machine;
use plant_commands::test_places;
use rows_files::{RowFiles, close_rows};
use serve_command::{ServeTask, serve_run};
use std::io::Write;

/// The configuration of a station, and how it is served.
#[derive(Clone, Copy)]
struct Serving<'a> {
    config: &'a Config,
    plan: Plan<'a>,
}

/// Reads the keys that a configuration names, starts its station, and serves it; at a good end its rows are closed.
fn serve_from<'a, F: RowFiles, W: Write, E: Write>(
    ground: &Ground<'_, ThisHost<'_>, F>,
    serving: Serving<'a>,
    out: &mut W,
    err: &mut E,
) -> Result<(), Fault<'a>>
    requires { MayStart (F.may_make ground.now.row_files.now) serving.config.now serving.plan.create }
    ensures { OnOk result (HasRunBy F.leaves F.opens F.Rows.version F.closes ground.now.row_files.now (file_of serving.entry.config.now) serving.entry.plan.create) }
{
    let Serving { config, plan } = serving;
    let rt = ground.rt;
    let launch = Launch {
        config,
        placed: test_places(rt, plan.config, config)?,
        keys: keys_of(rt, config)?,
        create: plan.create,
        offer: plan.offer,
    };
    let Started {
        station,
        wire,
        offer,
        table: _,
    } = start(ground, launch)?;
    let mut machine = Machine {
        alloc: rt.alloc(),
        station,
        wire,
        outside: out,
    };
    let task = ServeTask {
        offer,
        withdraw: plan.withdraw,
        seek: plan.seek,
        turns: plan.turns,
    };
    let outcome = serve_run(&mut machine, task, err);
    let rows = machine.station.into_rows().into_rows();
    close_rows(ground.row_files, rows, outcome)?;
    Ok(())
}

/// Serves the station of a configuration as the plan asks, with its rows saved in one of the files.
///
/// What it starts from is looked for in this order, and the first fault ends it: the configuration, where its files stand, the file of keys,
/// the code table, the widths, the tape, the saved rows, the socket. After a good end the rows are closed.
pub fn serve<F: RowFiles, W: Write, E: Write>(
    ground: &Ground<'_, ThisHost<'_>, F>,
    plan: Plan<'_>,
    out: &mut W,
    err: &mut E,
) -> End
    requires asked { AsksForFile (Serve plan) → F.may_make ground.now.row_files.now }
    ensures { StartsAsked (Serve plan.entry) (HasRun F.leaves F.opens F.Rows.version F.closes ground.now.row_files.now) result }
{
    let rt = ground.rt;
    let file = ConfigInput {
        path: plan.config,
        input: ground.host.open(plan.config),
    };
    let read = read_config(rt.alloc(), &Resolver { net: rt }, file);
    match &read {
        Ok(config) => end_with(serve_from(ground, Serving { config, plan }, out, err), err),
        Err(fault) => fault.tell(err),
    }
}
