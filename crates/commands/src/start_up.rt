//! A station that starts from its configuration: the files that this names, its saved rows and its wire.

ghost use Rattle.std.specs.Prelude.{◌≡◌, [], IfOk, IfErr, OnOk, IsSome, option_map, string_bytes};
ghost use Rattle.command_ends.specs.Ends.{end_of};
ghost use Rattle.command_ends.specs.declared.end.End.TheVariants.{Store};
ghost use Rattle.configuration.specs.Reading.{file_of};
ghost use Rattle.configuration.specs.Stations.{IsCircuit};
ghost use Rattle.rows_saved.specs.Identity.{IsIdentity};
ghost use Rattle.rows_files.specs.Telling.{KeepsCause};
ghost use Rattle.commands.specs.Starts.{identity_of, IsStationOf, IsTableAt, AreWidthsAt, IsOffer, GivesBesideRows, MayStart};
ghost use Rattle.commands.specs.Starts.{AreRowsAt, AreRowsFor, AreRefusedBy, IsWireAmong, IsWireOf};

use crate::files::{Files, read_files};
use crate::host::Host;
use ballots::Member;
use code_table::CodeTable;
use command_ends::Fault;
use command_line::TapeOffer;
use configuration::Config;
use line_check::Setting;
use plant_commands::Placed;
use rows_files::{NewRows, RefusedRows, RowFiles, create_rows};
use rows_saved::{Grouped, Identity, Rows};
use seals::Keys;
use station::{Membership, Station};
use std::alloc::Global;
use std::io;
use std::io::ErrorKind;
use tape_frames::{Tape, Version};
use wire::{Address, Wire};

/// A station over its saved rows, with its wire, what it offers first, and its code table once more.
#[derive(Drop)]
pub struct Started<R: Rows, N: Wire + Drop> {
    pub station: Station<R>,
    pub wire: N,
    /// The number and the tape that are offered, if any.
    pub offer: Option<(u32, Tape)>,
    /// The same code table as the station's own.
    pub table: CodeTable,
}

/// The machine that a station starts on, with its files of rows.
#[derive(Drop)]
pub struct Ground<'a, H: Host, F: RowFiles> {
    pub rt: &'a HostRuntime,
    pub host: &'a H,
    pub row_files: &'a F,
}

/// A station that is to be started.
#[derive(Drop)]
pub struct Launch<'a> {
    pub config: &'a Config,
    /// That its files stand where they may.
    pub placed: Placed,
    /// The keys of its circuit, where its wire is sealed.
    pub keys: Option<Keys>,
    /// The version that its saved rows are made in, where they are made.
    pub create: Option<Version>,
    /// What it offers first, if anything.
    pub offer: Option<TapeOffer<'a>>,
}

/// What a station is put together from.
#[derive(Drop)]
struct StationParts<R: Rows, N: Wire + Drop> {
    files: Files,
    rows: R,
    wire: N,
}

/// Whose rows a station of this configuration saves.
fn identity_of(config: &Config) -> Identity
    requires { IsCircuit config.now.member config.now.stations.items }
    ensures value { result ≡ identity_of (file_of config.now) }
    ensures is_one { IsIdentity result }
{
    Identity {
        circuit: config.circuit,
        member: config.member.get(),
        members: config.stations.len() as u8,
    }
}

/// The saved rows of this station in the file at a path, which is made first where a version is given, or taken up. Only whoever was asked
/// to make one gives a version.
fn rows_of<H: Host, F: RowFiles>(
    ground: &Ground<'_, H, F>,
    path: &str,
    identity: Identity,
    create: Option<Version>,
) -> Result<F::Rows, RefusedRows>
    requires identity { IsIdentity identity }
    requires asked { IsSome create → F.may_make ground.now.row_files.now }
    ensures rows { IfOk result (AreRowsAt F.leaves F.opens F.Rows.version ground.now.row_files.now path.now create identity) }
    ensures open { IfOk result (λ rows. F.Rows.kept rows → F.Rows.is_open rows) }
    ensures refused { IfErr result (AreRefusedBy F.refuses ground.now.row_files.now create) }
{
    match create {
        Some(version) => {
            let new = NewRows {
                path,
                identity,
                version,
            };
            create_rows(ground.rt, ground.row_files, new)
        }
        None => ground.row_files.open(ground.rt, path, Some(identity)),
    }
}

/// Makes the row file that a configuration names, for its station and in the layout for rows of this version, and tells what was
/// made. Only whoever was asked to make one may call it, and has looked where its files stand.
///
/// It is refused as [`RowFiles::make`] is.
pub(crate) fn make_rows<'a, H: Host, F: RowFiles>(
    ground: &Ground<'_, H, F>,
    config: &'a Config,
    version: Version,
    _placed: Placed,
) -> Result<NewRows<'a>, RefusedRows>
    requires circuit { IsCircuit config.now.member config.now.stations.items }
    requires asked { F.may_make ground.now.row_files.now }
    ensures made { OnOk result (F.leaves ground.now.row_files.now (string_bytes config.now.rows) (identity_of (file_of config.now)) version) }
    ensures path { IfOk result (λ new. new.path.now ≡ string_bytes config.now.rows) }
    ensures identity { IfOk result (λ new. new.identity ≡ identity_of (file_of config.now)) }
    ensures version { IfOk result (λ new. new.version ≡ version) }
    ensures refused { IfErr result (F.refuses ground.now.row_files.now) }
{
    let new = NewRows {
        path: &config.rows,
        identity: identity_of(config),
        version,
    };
    ground.row_files.make(ground.rt, new)?;
    Ok(new)
}

/// Why there is no wire: there is no memory for it, or the socket can't be bound.
fn no_wire<'f>(error: &io::Error) -> Fault<'f>
    ensures { ¬ (end_of result ≡ Store) }
{
    match error.kind() {
        ErrorKind::OutOfMemory => Fault::OutOfMemory,
        _ => Fault::Socket("cannot bind"),
    }
}

/// The wire at the member's own address, of those of all stations.
fn wire_of<'f, H: Host>(
    host: &H,
    member: Member,
    stations: Vec<Address>,
    keys: Option<Keys>,
) -> Result<H::Wire, Fault<'f>>
    requires { IsCircuit member stations.items }
    ensures { GivesBesideRows result (IsWireAmong H.is_bound stations.items member keys) }
{
    let own = stations[usize::from(member.get()) - 1];
    match host.bind(&own, stations, keys) {
        Ok(wire) => Ok(wire),
        Err(error) => Err(no_wire(&error)),
    }
}

/// Puts the station over its rows, with its wire.
fn start_over<'f, R: Rows, N: Wire + Drop>(
    alloc: Global,
    identity: Identity,
    held: StationParts<R, N>,
) -> Result<Started<R, N>, Fault<'f>>
    requires { IsIdentity identity }
    ensures station { IfOk result (λ s. IsStationOf identity s.station) }
    ensures table { IfOk result (λ s. s.station.table ≡ held.files.table) }
    ensures copy { IfOk result (λ s. s.table ≡ held.files.table) }
    ensures widths { IfOk result (λ s. s.station.widths ≡ held.files.widths) }
    ensures offer { IfOk result (λ s. s.offer ≡ held.files.offer) }
    ensures rows { IfOk result (λ s. s.station.rows ≡ held.rows) }
    ensures version { IfOk result (λ s. s.station.speaker.wire ≡ R.version held.rows) }
    ensures wire { IfOk result (λ s. s.wire ≡ held.wire) }
    ensures fault { IfErr result (λ fault. ¬ (end_of fault ≡ Store)) }
{
    let StationParts { files, rows, wire } = held;
    let Files {
        table,
        widths,
        offer,
    } = files;
    let copy = table.copy(alloc)?;
    let Identity {
        circuit,
        member,
        members,
    } = identity;
    let place = Membership {
        circuit,
        me: member,
        members,
    };
    match Station::new(alloc, place, Setting { table, widths }, rows) {
        Ok(station) => Ok(Started {
            station,
            wire,
            offer,
            table: copy,
        }),
        Err(_) => unreachable!(),
    }
}

/// The station of a configuration, over its saved rows in one of the files, which is made first where a version is given, and in
/// their version, with its wire, sealed where there are keys, and the tape that it offers first, if it offers one.
/// What it saves waits until it is settled, so that many rows are saved as one.
///
/// What it starts from is looked for in this order, and the first fault ends it: the code table, the widths, the tape, the
/// saved rows, the socket. Rows that are refused are told with their own cause. A file is made only where that was asked for.
pub fn start<'a, H: Host, F: RowFiles>(
    ground: &Ground<'_, H, F>,
    launch: Launch<'a>,
) -> Result<Started<Grouped<F::Rows>, H::Wire>, Fault<'a>>
    requires { MayStart (F.may_make ground.now.row_files.now) launch.config.now launch.create }
    ensures station { IfOk result (λ s. IsStationOf (identity_of (file_of launch.entry.config.now)) s.station) }
    ensures table { IfOk result (λ s. IsTableAt (H.text ground.now.host.now) (string_bytes launch.entry.config.now.table) s.station.table) }
    ensures same { IfOk result (λ s. s.table ≡ s.station.table) }
    ensures widths { IfOk result (λ s. AreWidthsAt (H.text ground.now.host.now) (string_bytes launch.entry.config.now.widths) s.station.widths) }
    ensures offer { IfOk result (λ s. IsOffer (H.text ground.now.host.now) (option_map (λ o. (o.number, o.path.now)) launch.entry.offer) s.offer) }
    ensures rows { IfOk result (λ s. AreRowsFor F.leaves F.opens F.Rows.version ground.now.row_files.now launch.entry s.station.rows.rows) }
    ensures waits { IfOk result (λ s. s.station.rows.waits ≡ []) }
    ensures open { IfOk result (λ s. F.Rows.kept s.station.rows.rows → F.Rows.is_open s.station.rows.rows) }
    ensures version { IfOk result (λ s. s.station.speaker.wire ≡ F.Rows.version s.station.rows.rows) }
    ensures wire { IfOk result (λ s. IsWireOf H.is_bound (file_of launch.entry.config.now) launch.entry.keys s.wire) }
    ensures refused { IfErr result (KeepsCause (AreRefusedBy F.refuses ground.now.row_files.now launch.entry.create)) }
{
    let Launch {
        config,
        placed: _,
        keys,
        create,
        offer,
    } = launch;
    let rt = ground.rt;
    let files = read_files(rt.alloc(), ground.host, config, offer)?;
    let identity = identity_of(config);
    let rows = rows_of(ground, &config.rows, identity, create)?;
    let stations = Vec::from_slice(rt.alloc(), config.stations.as_slice())?;
    let wire = wire_of(ground.host, config.member, stations, keys)?;
    let rows = Grouped::new(rt.alloc(), rows);
    let held = StationParts { files, rows, wire };
    start_over(rt.alloc(), identity, held)
}
