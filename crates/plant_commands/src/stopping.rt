//! The command `stop`.

ghost use Rattle.std.specs.Prelude.{◌≡◌};
ghost use Rattle.command_ends.specs.Ends.{end_of, IsOfInput};
ghost use Rattle.command_ends.specs.Giving.{Gives};
ghost use Rattle.host_folders.specs.declared.workers.Worker.TheVariants.{Nobody};

use command_ends::{End, Fault, end_with};
use configuration::{ConfigInput, NoLookUp, read_config};
use folders::FolderFault;
use host_folders::{WorkedOffers, Worker, await_end, lay_stop};
use std::io::Write;
use streams::InputFile;

/// How many seconds it is waited for a station to end. It copies its log into its row file, which has a thousand pages at most.
const SECONDS: u32 = 30;

/// Why a station is not ended whose offers can't be read or written.
fn of_offers<'a>(what: &'static str, fault: FolderFault) -> Fault<'a>
    ensures end { IsOfInput (end_of result) }
{
    match fault {
        FolderFault::OutOfMemory => Fault::OutOfMemory,
        _ => Fault::Offers {
            what,
            why: fault.word(),
        },
    }
}

/// Refuses a station that has not ended in time: something works with its offers still.
fn test_ended<'a>(worker: Worker) -> Result<(), Fault<'a>>
    ensures ended { Gives result (λ _. worker ≡ Nobody) }
{
    match worker {
        Worker::Nobody => Ok(()),
        Worker::Process(process) => Err(Fault::StillHeld {
            seconds: SECONDS,
            process,
        }),
        Worker::Unlisted => Err(Fault::NotEnded(SECONDS)),
    }
}

/// Ends the station of the configuration at a path.
fn stopped<'a>(rt: &HostRuntime, config: &'a str) -> Result<(), Fault<'a>>
    ensures { Gives result (λ _. Unit {0}) }
{
    let file = ConfigInput {
        path: config,
        input: InputFile::at(rt, config),
    };
    // No station is talked to, so no host is looked up: it ends also where the names are not known any more.
    let config = read_config(rt.alloc(), &NoLookUp, file)?;
    let Some(folders) = &config.folders else {
        return Err(Fault::NoFolders);
    };
    if let Err(fault) = lay_stop(rt, &folders.offers) {
        return Err(of_offers("write", fault));
    }
    let worked = WorkedOffers {
        offers: &folders.offers,
        rows: &config.rows,
    };
    match await_end(rt, worked, SECONDS) {
        Ok(worker) => test_ended(worker),
        Err(fault) => Err(of_offers("read", fault)),
    }
}

/// Ends the station of the configuration at a path: lays the file `stop` among its offers, and waits until no process works with these.
///
/// The first fault ends it: of the configuration, of the folder, or that the station has not ended in time. Where no station is up it
/// ends at once, and the next start takes the file away.
pub fn stop<E: Write>(rt: &HostRuntime, config: &str, err: &mut E) -> End
    ensures ends { IsOfInput result }
{
    end_with(stopped(rt, config), err)
}
