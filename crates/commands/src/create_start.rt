//! The command `create`.

ghost use Rattle.std.specs.Prelude.{◌≡◌, IfOk, IfErr, OnOk, string_bytes};
ghost use Rattle.std.specs.Io.KnownBytes.{Appends};
ghost use Rattle.arguments.specs.declared.asked.Asked.TheVariants.{Create};
ghost use Rattle.command_ends.specs.Ends.{end_of, IsOfInput, IsOfRows};
ghost use Rattle.command_ends.specs.Giving.{Gives};
ghost use Rattle.command_ends.specs.declared.end.End.TheVariants.{Store};
ghost use Rattle.configuration.specs.Stations.{IsCircuit};
ghost use Rattle.rows_files.specs.Telling.{KeepsCause};
ghost use Rattle.commands.specs.Creations.{layout_number, made_line, CreateEnds, Creates};
ghost use Rattle.commands.specs.Ends.{AsksForFile};
ghost use Rattle.commands.specs.Starts.{GivesBesideRows};

use crate::host::{Host, ThisHost};
use crate::start_up::{Ground, make_rows};
use command_ends::{End, Fault, end_with};
use command_line::CreatePlan;
use configuration::{Config, ConfigInput, NoLookUp, read_config};
use plant_commands::{Placed, test_places};
use rows_files::{NewRows, RowFiles};
use std::alloc::{AllocError, Global};
use std::io::Write;
use streams::put_whole;
use tape_frames::Version;

/// The number of the layout that rows of this version are made in.
pub(crate) fn layout_number(version: Version) -> u8
    ensures { result ≡ layout_number version }
{
    match version {
        Version::One => 1,
        Version::Two => 2,
    }
}

/// The line that says what was made.
fn made_line(alloc: Global, made: NewRows<'_>) -> Result<String, AllocError>
    ensures { IfOk result (λ t. string_bytes t ≡ made_line made.entry.path.now made.entry.identity made.entry.version) }
{
    let path = made.path;
    let member = made.identity.member;
    let members = made.identity.members;
    let circuit = made.identity.circuit;
    let layout = layout_number(made.version);
    format!(in alloc;
        "made {path}: station {member} of {members} circuit {circuit} layout {layout}\n"
    )
}

/// Writes what was made, and hands it on.
fn put_made<'a, W: Write>(alloc: Global, made: NewRows<'_>, out: &mut W) -> Result<(), Fault<'a>>
    ensures ok { OnOk result (Appends (W.contents out.old) (W.contents out.new) (made_line made.entry.path.now made.entry.identity made.entry.version)) }
    ensures fault { IfErr result (λ fault. IsOfRows (end_of fault)) }
    ensures written { IfErr result (λ fault. ¬ (end_of fault ≡ Store)) }
{
    let line = made_line(alloc, made)?;
    put_whole(out, line.as_bytes())?;
    Ok(())
}

/// The configuration at a path. No station is talked to, so no host is looked up.
fn config_at<'a>(host: &ThisHost<'_>, path: &'a str) -> Result<Config, Fault<'a>>
    ensures given { GivesBesideRows result (λ config. IsCircuit config.member config.stations.items) }
    ensures input { IfErr result (λ fault. IsOfInput (end_of fault)) }
{
    let file = ConfigInput {
        path,
        input: host.open(path),
    };
    read_config(host.rt.alloc(), &NoLookUp, file)
}

/// Refuses a configuration whose files do not stand where they may. That is no fault of the rows.
fn test_placed<'a>(host: &ThisHost<'_>, path: &str, config: &Config) -> Result<Placed, Fault<'a>>
    ensures given { GivesBesideRows result (λ _. Unit {0}) }
    ensures stands { Gives result (λ _. Unit {0}) }
{
    test_places(host.rt, path, config)
}

/// Makes the row file, up to the first fault.
fn created<'a, F: RowFiles, W: Write>(
    ground: &Ground<'_, ThisHost<'_>, F>,
    plan: CreatePlan<'a>,
    out: &mut W,
) -> Result<(), Fault<'a>>
    requires { F.may_make ground.now.row_files.now }
    ensures creates { Creates F.leaves ground.now.row_files.now plan.entry.layout (W.contents out.old) (W.contents out.new) result }
    ensures refused { IfErr result (KeepsCause (F.refuses ground.now.row_files.now)) }
{
    let config = config_at(ground.host, plan.config)?;
    let placed = test_placed(ground.host, plan.config, &config)?;
    let new = make_rows(ground, &config, plan.layout, placed)?;
    put_made(ground.rt.alloc(), new, out)
}

/// Makes the row file that the configuration at a path names, and writes a line that says what was made, as
/// `made station.db: station 2 of 3 circuit 7 layout 2`.
///
/// The first fault ends it: of the configuration, of where its files stand, of the row file, of the output. At the last the file is made.
pub fn create<F: RowFiles, W: Write, E: Write>(
    ground: &Ground<'_, ThisHost<'_>, F>,
    plan: CreatePlan<'_>,
    out: &mut W,
    err: &mut E,
) -> End
    requires asked { AsksForFile (Create plan) → F.may_make ground.now.row_files.now }
    ensures ends { CreateEnds F.leaves ground.now.row_files.now plan.entry.layout (W.contents out.old) (W.contents out.new) result }
{
    end_with(created(ground, plan, out), err)
}
