//! The command `serve`: what a station is asked, and its turns.

ghost use Rattle.std.specs.Prelude.{◌≡◌};
ghost use Rattle.driver.specs.Driving.{DroveUpTo, IsTurn};
ghost use Rattle.serve_command.specs.Serving.{ServesBy, IsOffer, IsWithdrawal, IsSearch, IsLaterAsking, IsAsking, AreTurns, IsRun};

use crate::printer::Printer;
use command_ends::Fault;
use driver::{Call, Driver, Log, Machine, NewerLayouts, Outlet};
use rows_saved::{Rows, Settles};
use station::StepRefusal;
use std::io::Write;
use tape_frames::Tape;
use wire::Wire;

/// One turn: its moment in milliseconds, and when newer layouts were told last.
#[derive(Drop)]
pub struct ServeTurn<'a> {
    pub at: u64,
    pub newer: &'a mut NewerLayouts,
}

/// One turn of a station at a moment in milliseconds: it takes in one datagram at most, and then sees to what is due.
///
/// What the station hands out is sent, and a release is written to the machine's output, once what it saved is stored. A datagram that it
/// refuses is passed over, a datagram that can't be sent is lost and told, and so are, once a second at most, those of strangers. One of a
/// layout that the station does not read is told once a minute at most. The turn ends by a fault where the wire fails to receive, the
/// station stops, or the output can't be written; `err` has what is told on the way.
pub fn serve_turn<R: Settles, N: Wire + Drop, W: Write + Drop, E: Write>(
    machine: &mut Machine<R, N, W>,
    turn: ServeTurn<'_>,
    err: &mut E,
) -> Result<(), Fault<'static>>
    ensures { ServesBy (IsTurn turn.entry.at) result R.Rows R.Settles.is_settled N.passed W.contents machine.old machine.new }
{
    let ServeTurn { at, newer } = turn;
    let printer = Printer {
        alloc: machine.alloc,
        out: &mut machine.outside,
    };
    let mut log = Log { err, quiet: false };
    let mut driver = Driver::new(&mut machine.station, &mut machine.wire, printer, newer);
    // It has a name, since the borrow checker does not cover this call as the last expression.
    let outcome = driver.turn_at(at, &mut log);
    outcome
}

/// What a station under `serve` does: what it is asked, as far as it is given, and how many turns it takes then.
#[derive(Drop)]
pub struct ServeTask {
    /// It is offered this tape for this number.
    pub offer: Option<(u32, Tape)>,
    /// It is offered the withdrawal of this number.
    pub withdraw: Option<u32>,
    /// It seeks what was agreed on for this number.
    pub seek: Option<u32>,
    pub turns: u32,
}

/// Offers a tape for a number, where there is one to offer.
fn make_offer<R: Settles, N: Wire, S: Outlet, E: Write>(
    driver: &mut Driver<'_, R, N, S>,
    offer: Option<(u32, Tape)>,
    log: &mut Log<'_, E>,
) -> Result<(), Fault<'static>>
    ensures { DroveUpTo (IsOffer offer) result R.Rows R.Settles.is_settled N.passed S.Sink driver.old driver.new }
{
    let Some((number, tape)) = offer else {
        return Ok(());
    };
    let call = Call::Offer {
        number,
        tape: &tape,
    };
    driver.ask(call, log)
}

/// Offers the withdrawal of a number, where there is one to withdraw.
fn make_withdrawal<R: Settles, N: Wire, S: Outlet, E: Write>(
    driver: &mut Driver<'_, R, N, S>,
    withdraw: Option<u32>,
    log: &mut Log<'_, E>,
) -> Result<(), Fault<'static>>
    ensures { DroveUpTo (IsWithdrawal withdraw) result R.Rows R.Settles.is_settled N.passed S.Sink driver.old driver.new }
{
    match withdraw {
        Some(number) => driver.ask(Call::Withdraw { number }, log),
        None => Ok(()),
    }
}

/// Seeks what was agreed on for a number, where there is one to seek.
fn make_search<R: Settles, N: Wire, S: Outlet, E: Write>(
    driver: &mut Driver<'_, R, N, S>,
    seek: Option<u32>,
    log: &mut Log<'_, E>,
) -> Result<(), Fault<'static>>
    ensures { DroveUpTo (IsSearch seek) result R.Rows R.Settles.is_settled N.passed S.Sink driver.old driver.new }
{
    match seek {
        Some(number) => driver.ask(Call::Seek { number }, log),
        None => Ok(()),
    }
}

/// Makes the withdrawal, and then the search.
fn withdraw_and_seek<R: Settles, N: Wire, S: Outlet, E: Write>(
    driver: &mut Driver<'_, R, N, S>,
    withdraw: Option<u32>,
    seek: Option<u32>,
    log: &mut Log<'_, E>,
) -> Result<(), Fault<'static>>
    ensures { DroveUpTo (IsLaterAsking withdraw seek) result R.Rows R.Settles.is_settled N.passed S.Sink driver.old driver.new }
{
    make_withdrawal(driver, withdraw, log)?;
    make_search(driver, seek, log)
}

/// Makes the offer, then the withdrawal, and then the search.
fn ask_all<R: Settles, N: Wire, S: Outlet, E: Write>(
    driver: &mut Driver<'_, R, N, S>,
    task: ServeTask,
    log: &mut Log<'_, E>,
) -> Result<(), Fault<'static>>
    ensures { DroveUpTo (IsAsking task.offer task.withdraw task.seek) result R.Rows R.Settles.is_settled N.passed S.Sink driver.old driver.new }
{
    make_offer(driver, task.offer, log)?;
    withdraw_and_seek(driver, task.withdraw, task.seek, log)
}

/// The turns of a station, one after the other, up to the first fault.
fn run_turns<R: Settles, N: Wire, S: Outlet, E: Write>(
    driver: &mut Driver<'_, R, N, S>,
    turns: u32,
    log: &mut Log<'_, E>,
) -> Result<(), Fault<'static>>
    ensures { DroveUpTo (AreTurns turns) result R.Rows R.Settles.is_settled N.passed S.Sink driver.old driver.new }
{
    for _ in 0..turns {
        driver.turn(log)?;
    }
    Ok(())
}

/// What is asked, and then the turns.
fn ask_and_turn<R: Settles, N: Wire, S: Outlet, E: Write>(
    driver: &mut Driver<'_, R, N, S>,
    task: ServeTask,
    log: &mut Log<'_, E>,
) -> Result<(), Fault<'static>>
    ensures { DroveUpTo (IsRun task) result R.Rows R.Settles.is_settled N.passed S.Sink driver.old driver.new }
{
    let turns = task.turns;
    ask_all(driver, task, log)?;
    run_turns(driver, turns, log)
}

/// Serves a station: the offer, then the withdrawal, then the search, if given, and then so many turns, up to the first
/// that does not end well.
///
/// An offer, a withdrawal or a search that the station refuses ends it, and so does that it has stopped. A station at
/// version 1 refuses each withdrawal. Releases are written to the machine's output; `err` has what is told on the way.
pub fn serve_run<R: Settles, N: Wire + Drop, W: Write + Drop, E: Write>(
    machine: &mut Machine<R, N, W>,
    task: ServeTask,
    err: &mut E,
) -> Result<(), Fault<'static>>
    ensures { ServesBy (IsRun task) result R.Rows R.Settles.is_settled N.passed W.contents machine.old machine.new }
{
    if machine.station.stopped() {
        return Err(Fault::of_step(StepRefusal::Stopped));
    }
    let mut newer = NewerLayouts::new();
    let printer = Printer {
        alloc: machine.alloc,
        out: &mut machine.outside,
    };
    let mut log = Log { err, quiet: false };
    let mut driver = Driver::new(&mut machine.station, &mut machine.wire, printer, &mut newer);
    ask_and_turn(&mut driver, task, &mut log)
}
