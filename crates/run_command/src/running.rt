//! The command `run`: a station that stays up, until a file says that it ends.

ghost use Rattle.std.specs.Prelude.{◌≡◌, OnOk, false, codes};
ghost use Rattle.folders.specs.Doings.{removed_file, MayDo};
ghost use Rattle.run_command.specs.Running.{RunsUpTo};

use crate::backlog::Backlog;
use crate::desk::PlantDesk;
use crate::plant::{Manner, Papers, Plant};
use code_table::CodeTable;
use command_ends::Fault;
use driver::{Driver, Machine, NewerLayouts};
use folders::{FolderFault, Folders, STOP};
use gone_out::{Known, Origin};
use log_terms::Loudness;
use plant_care::{Care, CareStart, begin};
use plant_log::tell_fault;
use plant_status::{StationId, StatusFile};
use rows_saved::{Rows, Settles};
use station::StepRefusal;
use std::alloc::Global;
use std::io::Write;
use wire::Wire;

/// On which terms a station is run.
#[derive(Drop)]
pub struct Terms<S: StatusFile + Drop> {
    /// Whose station it is.
    pub own: Origin,
    /// The numbers that have a saved row; not known of a station without folders, which catches up with nothing.
    pub known: Option<Known>,
    /// By which code table texts among the offers become tapes; by none where no text may be offered.
    pub texts: Option<CodeTable>,
    /// Whether files come into the folder of offers only by being renamed: then one that a look found is whole.
    pub renamed: bool,
    /// Whether it asks the others for what is missing here.
    pub catches_up: bool,
    /// How much is told.
    pub loudness: Loudness,
    /// Which station its status file tells of, where it has one, and where that lies.
    pub status: Option<StationId>,
    pub file: S,
}

/// Takes away a file that ended the run before; one that can't be is told, and passed over.
fn remove_stop<F: Folders, E: Write>(alloc: Global, folders: &mut F, err: &mut E)
    ensures { MayDo (F.doings folders.old) (F.doings folders.new) (removed_file (codes "stop")) }
{
    match folders.remove(alloc, STOP) {
        Ok(()) | Err(FolderFault::Missing | FolderFault::NoFile) => {}
        Err(fault) => tell_fault(alloc, "cannot remove stop", fault, err),
    }
}

/// With what a plant begins that catches up.
#[derive(Drop)]
struct Outset<S: StatusFile + Drop> {
    manner: Manner,
    /// By which code table texts among the offers become tapes; by none where no text may be offered.
    texts: Option<CodeTable>,
    care: Box<Care>,
    /// Where its status lies.
    file: S,
    /// Whether faults alone are told.
    is_quiet: bool,
}

/// Takes a file away that ended the run before, and drives the station until its run is over.
fn drive<R: Settles, N: Wire + Drop, F: Folders + Drop, E: Write, S: StatusFile + Drop>(
    machine: &mut Machine<R, N, F>,
    outset: Outset<S>,
    err: &mut E,
) -> Result<(), Fault<'static>>
    ensures { RunsUpTo outset.texts result R.Rows R.Settles.is_settled N.passed F.doings F.refuses machine.old machine.new }
{
    let Outset {
        manner,
        texts,
        care,
        mut file,
        is_quiet,
    } = outset;
    let alloc = machine.alloc;
    remove_stop(alloc, &mut machine.outside, err);
    let waits = Backlog::new(alloc);
    let papers = Papers::new(alloc, manner, care);
    let mut plant = Plant {
        waits,
        texts,
        papers,
    };
    let desk = PlantDesk::new(&mut machine.outside, &mut plant, &mut file);
    let mut newer = NewerLayouts::new();
    let mut driver = Driver::new(&mut machine.station, &mut machine.wire, desk, &mut newer);
    driver.run(alloc, err, is_quiet)
}

/// Runs a station over the folders of its plant, which its machine has outside, until a file `stop` lies among the offers, or the station
/// stops, the network fails, or there is no memory for the files of a release. A file `stop` that lies there at the start is taken away.
/// The fault that ends it is its answer; `err` has what is told on the way, and that this can't be written is ignored.
///
/// Steps of the station share a save. Once what they saved is stored, what they hand out is sent, and what they release is written among
/// the releases, or waits to be where the folder does not take it. What went out before is read of the folders, and what is missing is
/// caught up with. What lies among the offers is taken up once it is whole, a text as the tape that it becomes, and leaves them once its
/// number is released, or where it is no offer. A folder that does not serve is told, and the station goes on.
pub fn run_station<R: Settles, N: Wire + Drop, F: Folders + Drop, E: Write, S: StatusFile + Drop>(
    machine: &mut Machine<R, N, F>,
    terms: Terms<S>,
    err: &mut E,
) -> Result<(), Fault<'static>>
    ensures was_kept { R.kept machine.new.station.rows → R.kept machine.old.station.rows }
    ensures runs { RunsUpTo terms.texts result R.Rows R.Settles.is_settled N.passed F.doings F.refuses machine.old machine.new }
    ensures goes_on { OnOk result (machine.new.station.stopped ≡ false) }
{
    let loudness = terms.loudness;
    let is_quiet = loudness == Loudness::Faults;
    let start = CareStart {
        alloc: machine.alloc,
        own: terms.own,
        known: terms.known,
        catches_up: terms.catches_up,
        is_quiet,
    };
    let manner = Manner {
        renamed: terms.renamed,
        loudness,
        status: terms.status,
        layout: machine.station.rows().version(),
    };
    if machine.station.stopped() {
        return Err(Fault::of_step(StepRefusal::Stopped));
    }
    let care = begin(start, &mut machine.outside, err)?;
    let outset = Outset {
        manner,
        texts: terms.texts,
        care,
        file: terms.file,
        is_quiet,
    };
    drive(machine, outset, err)
}
