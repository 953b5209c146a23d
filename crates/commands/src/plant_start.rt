//! Whether a plant can be run where it lies, and its folders, which are held from then on.

ghost use Rattle.std.specs.Prelude.{◌≡◌, ◌⊎◌, IfErr};
ghost use Rattle.command_ends.specs.declared.end.End.TheVariants.{Busy};
ghost use Rattle.command_ends.specs.declared.fault.Fault.TheVariants.{OutOfMemory};
ghost use Rattle.commands.specs.Ends.{end_in};
ghost use Rattle.commands.specs.declared.plant_start.PlantFault.TheVariants.{Other};

use command_ends::{CommandFault, End, Fault};
use configuration::{Config, WorkFolders};
use host_folders::HostFolders;
use host_process::file_limit;
use plant_commands::Placed;
use std::alloc::AllocError;
use std::fmt;

/// Why a plant is not run, or its run did not end well.
#[derive(Clone, Copy)]
pub(crate) enum PlantFault<'a> {
    /// What any command tells in the same words.
    Other(Fault<'a>),
    /// Files of this process may not have more than so many bytes.
    Limited(u64),
}

impl<'a> From<Fault<'a>> for PlantFault<'a> {
    ghost from_gives = { λ fault told. told ≡ Other fault };

    fn from(fault: Fault<'a>) -> PlantFault<'a> {
        PlantFault::Other(fault)
    }
}

impl<'a> From<AllocError> for PlantFault<'a> {
    ghost from_gives = { λ _ told. told ≡ Other OutOfMemory };

    fn from(_error: AllocError) -> PlantFault<'a> {
        PlantFault::Other(Fault::OutOfMemory)
    }
}

/// What a person reads.
impl<'a> fmt::Display for PlantFault<'a> {
    fn fmt<W: fmt::Write>(&self, f: &mut fmt::Formatter<W>) -> fmt::Result {
        match self {
            PlantFault::Other(fault) => write!(f, "{fault}"),
            PlantFault::Limited(limit) => {
                write!(f, "limit: no file may have more than {limit} bytes")
            }
        }
    }
}

impl<'a> CommandFault for PlantFault<'a> {
    ghost ends_as = { end_in };

    fn end(&self) -> End {
        match self {
            PlantFault::Other(fault) => fault.end(),
            PlantFault::Limited(_) => End::Input,
        }
    }
}

/// The folders of a plant, held, whether texts may be offered in them, and whether files come into its offers only by being renamed.
#[derive(Drop)]
pub(crate) struct OpenPlant<'r> {
    pub(crate) folders: HostFolders<'r>,
    pub(crate) takes_texts: bool,
    pub(crate) renamed: bool,
    /// The path of its status file, where it has one.
    pub(crate) status: Option<String>,
}

/// The folders at these paths, held. Where another process works with one it is tried again later, so that end is one of its own.
fn open_folders<'r, 'f>(
    rt: &'r HostRuntime,
    folders: &WorkFolders,
) -> Result<OpenPlant<'r>, PlantFault<'f>>
    ensures held { IfErr result (λ fault. (fault ≡ Other OutOfMemory) ⊎ (end_in fault ≡ Busy)) }
{
    let offers = folders.offers.clone()?;
    let releases = folders.releases.clone()?;
    let status = match &folders.status {
        Some(path) => Some(path.clone()?),
        None => None,
    };
    match HostFolders::open(rt, offers, releases) {
        Ok(held) => Ok(OpenPlant {
            folders: held,
            takes_texts: folders.text,
            renamed: folders.renamed,
            status,
        }),
        Err(holder) => Err(PlantFault::Other(Fault::InUse(holder.word()))),
    }
}

/// The folders of a plant, if the configuration that was read at this path names some. They are held from then on, until they are let go.
///
/// It is refused where files of this process may not grow, and where another process works with a folder. Only whoever has looked where the files stand
/// can call it: what lies in the passage is moved then.
pub(crate) fn open_plant<'r, 'f>(
    rt: &'r HostRuntime,
    _placed: Placed,
    config: &Config,
) -> Result<Option<OpenPlant<'r>>, PlantFault<'f>> {
    if let Some(limit) = file_limit() {
        return Err(PlantFault::Limited(limit));
    }
    let Some(folders) = &config.folders else {
        return Ok(None);
    };
    Ok(Some(open_folders(rt, folders)?))
}
