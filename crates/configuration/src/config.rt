//! The configuration of a station, read from TOML.

ghost use Rattle.std.specs.Prelude.{◌≡◌, IfOk, option_map, nat_le, string_bytes};
ghost use Rattle.toml.specs.Parse.{parse_document};
ghost use Rattle.toml.specs.View.{table_view};
ghost use Rattle.configuration.specs.Documents.{IsDocumentOf};
ghost use Rattle.configuration.specs.Keys.{lent_paths};
ghost use Rattle.configuration.specs.Reading.{file_from, file_of, paths_of, read_file, read_config, IsReadAs};

use crate::fault::{ConfigFault, ConfigKey};
use crate::keys::{
    FolderPaths, Paths, catches_up_in, circuit_at, entries_at, folders_in, member_at, paths_in,
    wire_in,
};
use crate::stations::read_stations;
use ballots::Member;
use std::alloc::{AllocError, Global};
use toml::Table;
use wire::Address;

/// The folders that a station works with.
#[derive(Drop)]
pub struct WorkFolders {
    /// The path of the folder in which stories are handed over to it.
    pub offers: String,
    /// The path of the folder in which it puts what the circuit has agreed on.
    pub releases: String,
    /// Whether texts may be handed over to it.
    pub text: bool,
    /// Whether files come into the folder of offers only by being renamed.
    pub renamed: bool,
    /// The path of the file in which its state is told, where there is to be one.
    pub status: Option<String>,
}

/// The configuration of one station of a circuit.
#[derive(Drop)]
pub struct Config {
    /// The circuit's number.
    pub circuit: u16,
    /// Which member this station is.
    pub member: Member,
    /// The paths of the code table, the width file and the saved rows.
    pub table: String,
    pub widths: String,
    pub rows: String,
    /// Its folders, where it has such.
    pub folders: Option<WorkFolders>,
    /// Whether it catches up by itself with what it missed.
    pub catches_up: bool,
    /// The path of the file of keys, where its wire is sealed.
    pub key: Option<String>,
    /// Where each member's station listens, in order of members: theirs are 1 to the number of stations.
    pub stations: Vec<Address>,
}

/// The document of a text.
pub(crate) fn document_of(alloc: Global, text: &str) -> Result<Table, ConfigFault>
    ensures { IsDocumentOf text.now result }
{
    toml::table_from_str(alloc, text).map_err(|error| {
        if error.is_memory() {
            ConfigFault::OutOfMemory
        } else {
            ConfigFault::NotToml
        }
    })
}

/// The text, with bytes of its own, where there is one.
fn owned(alloc: Global, text: Option<&str>) -> Result<Option<String>, AllocError>
    ensures { IfOk result (λ t. option_map string_bytes t ≡ option_map (λ s. s.now) text.entry) }
{
    match text {
        Some(text) => Ok(Some(text.to_string(alloc)?)),
        None => Ok(None),
    }
}

/// The folders at these paths.
fn folders_of(alloc: Global, paths: &FolderPaths<'_>) -> Result<WorkFolders, AllocError>
    ensures { IfOk result (λ f. paths_of f ≡ lent_paths paths.now) }
{
    let offers = paths.offers.to_string(alloc)?;
    let releases = paths.releases.to_string(alloc)?;
    let status = owned(alloc, paths.status)?;
    let text = paths.text;
    let renamed = paths.renamed;
    Ok(WorkFolders {
        offers,
        releases,
        text,
        renamed,
        status,
    })
}

/// The folders at these paths, where there are such.
fn folders_at(
    alloc: Global,
    paths: &Option<FolderPaths<'_>>,
) -> Result<Option<WorkFolders>, AllocError>
    ensures { IfOk result (λ f. option_map paths_of f ≡ option_map lent_paths paths.now) }
{
    match paths {
        Some(paths) => Ok(Some(folders_of(alloc, paths)?)),
        None => Ok(None),
    }
}

/// The paths of three files, and of the file of keys, with texts of their own.
#[derive(Drop)]
struct FilePaths {
    table: String,
    widths: String,
    rows: String,
    key: Option<String>,
}

/// The files at these paths.
fn files_of(alloc: Global, paths: &Paths<'_>, key: Option<&str>) -> Result<FilePaths, AllocError>
    ensures table { IfOk result (λ f. string_bytes f.table ≡ paths.now.table.now) }
    ensures widths { IfOk result (λ f. string_bytes f.widths ≡ paths.now.widths.now) }
    ensures rows { IfOk result (λ f. string_bytes f.rows ≡ paths.now.rows.now) }
    ensures key { IfOk result (λ f. option_map string_bytes f.key ≡ option_map (λ s. s.now) key.entry) }
{
    let table = paths.table.to_string(alloc)?;
    let widths = paths.widths.to_string(alloc)?;
    let rows = paths.rows.to_string(alloc)?;
    let key = owned(alloc, key)?;
    Ok(FilePaths {
        table,
        widths,
        rows,
        key,
    })
}

/// Which station it is of which circuit, and whether it catches up by itself.
#[derive(Clone, Copy)]
struct Own {
    circuit: u16,
    member: Member,
    catches_up: bool,
}

/// The configuration of these.
fn config_of(
    own: Own,
    files: FilePaths,
    folders: Option<WorkFolders>,
    stations: Vec<Address>,
) -> Config
    ensures value { file_of result ≡ file_from own files folders stations.items }
    ensures member { result.member ≡ own.member }
    ensures stations { result.stations ≡ stations }
{
    let FilePaths {
        table,
        widths,
        rows,
        key,
    } = files;
    let Own {
        circuit,
        member,
        catches_up,
    } = own;
    Config {
        circuit,
        member,
        table,
        widths,
        rows,
        folders,
        catches_up,
        key,
        stations,
    }
}

/// Whether there is a station of this member, where they are those of the members from 1 to this count.
fn has_station(count: usize, member: Member) -> bool
    ensures { result ≡ nat_le member count }
{
    usize::from(member.get()) <= count
}

/// The configuration of a document.
#[tactic(auto, unfolding(crate::specs::Reading::read_file))]
fn read_file(alloc: Global, found: &[Option<[u8; 4]>], file: &Table) -> Result<Config, ConfigFault>
    ensures { IsReadAs (read_file found.now (table_view file.now)) result }
{
    let circuit = circuit_at(file)?;
    let member = member_at(file)?;
    let paths = paths_in(file)?;
    let folders = folders_in(file)?;
    let catches_up = catches_up_in(file)?;
    let key = wire_in(file)?;
    let entries = entries_at(file)?;
    let stations = read_stations(alloc, found, entries)?;
    if !has_station(stations.len(), member) {
        return Err(ConfigFault::OutOfRange(ConfigKey::Member));
    }
    let files = files_of(alloc, &paths, key)?;
    let folders = folders_at(alloc, &folders)?;
    let own = Own {
        circuit,
        member,
        catches_up,
    };
    Ok(config_of(own, files, folders, stations))
}

impl Config {
    /// The configuration of a TOML text, where this was found for the hosts of its stations, entry by entry, as
    /// [`find_hosts`](crate::find_hosts) finds it.
    ///
    /// The first fault that holds is answered: `NotToml`; `Missing`, `WrongType` or `OutOfRange` of each key in the order
    /// of [`ConfigKey`](crate::ConfigKey), where the tables of the folders, of catching up and of the wire may be absent with their keys;
    /// `BadStation` of the first entry that is no address, or is at odds with an earlier one, or `NoAddress` where nothing was found for
    /// its host; and then `OutOfRange` of a member above the number of stations. `OutOfMemory` comes where the text could not be read
    /// or the configuration not be made for want of memory.
    #[tactic(auto, unfolding(crate::specs::Reading::read_config))]
    pub fn read(alloc: Global, text: &str, found: &[Option<[u8; 4]>]) -> Result<Config, ConfigFault>
        ensures { IsReadAs (read_config found.now (parse_document text.now)) result }
    {
        let file = document_of(alloc, text)?;
        read_file(alloc, found, &file)
    }
}
