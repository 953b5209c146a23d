//! The turns of a station that stays up: one work after the other, in the order of `pace`, until the run is over.

ghost use Rattle.std.specs.Prelude.{◌≡◌, [], OnOk, true};
ghost use Rattle.driver.specs.Events.{ended};
ghost use Rattle.driver.specs.Replies.{IsAskedBy, awaited, reply_of};
ghost use Rattle.driver.specs.Driving.{Anyhow, AtClock, Drove, DroveBehind, EndsHandedOn, HandsOutLast, fate_of, known, post_of};
ghost use Rattle.driver.specs.Grouping.{goes_alone};
ghost use Rattle.driver.specs.Todos.{IsAskingFor, IsDeed, IsGoodTodo, IsNextWork, IsTodoDone, IsWorkDone};

use crate::calls::ask;
use crate::desk::{Chance, Denied, Desk, Todo};
use crate::driver::{Driver, pass_over};
use crate::group::Group;
use crate::log::Log;
use crate::pacing::asking_of;
use crate::sink::TakenStep;
use crate::telling::{tell_lost, tell_strangers};
use ballots::Ballot;
use command_ends::Fault;
use folders::{FileRequest, OfferKind};
use pace::Work;
use rows_saved::{Rows, Settles};
use station::{Answer, Station, StepRefusal};
use std::alloc::Global;
use std::io::Write;
use wire::Wire;

/// What a work finds: the moment in milliseconds, and whether a datagram waits in memory.
#[derive(Clone, Copy)]
struct WorkSight {
    now: u64,
    waits: bool,
}

/// The run is not over by this.
fn going_on(done: Result<(), Fault<'static>>) -> Result<bool, Fault<'static>>
    ensures { ended result ≡ ended done.entry }
{
    match done {
        Ok(()) => Ok(false),
        Err(fault) => Err(fault),
    }
}

/// What came of asking the station for a file.
#[derive(Drop)]
pub(crate) enum FileReply {
    /// It is not known any more what for, and it was not asked.
    Unknown,
    /// It took the step, for an entry of so many bytes.
    Done { answer: Answer, length: usize },
    /// It refused.
    Refused(StepRefusal),
}

/// What came of it, where it was asked for an entry of so many bytes.
fn reply_of(length: usize, answer: Result<Answer, StepRefusal>) -> FileReply
    ensures { result ≡ reply_of length answer }
{
    match answer {
        Ok(answer) => FileReply::Done { answer, length },
        Err(refusal) => FileReply::Refused(refusal),
    }
}

/// The ballot of what was asked for, where votes are awaited of it: of a search none may come, so it keeps no other work waiting.
fn awaited(request: &FileRequest, ballot: Option<Ballot>) -> Option<Ballot>
    ensures { result ≡ awaited request.now.kind ballot }
{
    match request.kind {
        OfferKind::Seek => None,
        OfferKind::Tape | OfferKind::Text | OfferKind::Withdraw => ballot,
    }
}

/// Asks the station for a file, at a moment in milliseconds.
fn ask_by<R: Rows, S: Desk>(
    station: &mut Station<R>,
    desk: &S,
    request: &FileRequest,
    now: u64,
) -> FileReply
    ensures { IsAskedBy R.Rows (S.may desk.now) now station.old station.new result }
{
    match desk.call(request) {
        Some(call) => {
            let length = call.length();
            reply_of(length, ask(station, call, now))
        }
        None => FileReply::Unknown,
    }
}

impl<'a, R: Settles, N: Wire, S: Desk> Driver<'a, R, N, S> {
    /// Asks the station for a file, at a moment in milliseconds, and hands on what it hands out.
    fn ask_for<E: Write>(
        &mut self,
        request: &FileRequest,
        now: u64,
        group: &mut Group,
        log: &mut Log<'_, E>,
    ) -> Result<(), Fault<'static>>
        ensures { DroveBehind (IsAskingFor now) result R.Rows R.Settles.is_settled N.passed S.Sink self.old self.new group.old group.new }
    {
        match ask_by(self.station, &self.sink, request, now) {
            FileReply::Done { answer, length } => {
                let ballot = awaited(request, self.station.open_ballot(request.number));
                self.pacing
                    .begin(asking_of(ballot, request.number, length), now);
                let step = TakenStep {
                    answer,
                    moment: now,
                };
                group.hold(step, &mut self.sink, log)
            }
            FileReply::Refused(refusal) => {
                let denied = Denied {
                    request: *request,
                    refusal,
                    moment: now,
                };
                self.sink.deny(denied, log);
                pass_over(refusal)
            }
            FileReply::Unknown => Ok(()),
        }
    }

    /// Does for the desk what is to be done, at a moment in milliseconds.
    fn do_todo<E: Write>(
        &mut self,
        todo: &Todo,
        now: u64,
        group: &mut Group,
        log: &mut Log<'_, E>,
    ) -> Result<(), Fault<'static>>
        requires good { IsGoodTodo todo.now }
        ensures { DroveBehind (IsTodoDone todo.now now) result R.Rows R.Settles.is_settled N.passed S.Sink self.old self.new group.old group.new }
    {
        match todo {
            Todo::Ask(request) => self.ask_for(request, now, group, log),
            Todo::Run(errand) => self.run_errand(errand, now, group, log),
        }
    }

    /// Does a deed: the desk does it, or says what is to be done.
    fn do_deed<E: Write>(
        &mut self,
        chance: Chance,
        group: &mut Group,
        log: &mut Log<'_, E>,
    ) -> Result<(), Fault<'static>>
        ensures { DroveBehind (IsDeed chance.moment) result R.Rows R.Settles.is_settled N.passed S.Sink self.old self.new group.old group.new }
    {
        match self.sink.deed(chance, log) {
            Some(todo) => self.do_todo(&todo, chance.moment, group, log),
            None => Ok(()),
        }
    }

    /// Does this work, where a datagram waits in memory or none does, at a moment in milliseconds; whether the run is over. A look or a wait
    /// comes only where nothing waits to be handed on.
    fn work<E: Write>(
        &mut self,
        work: Work,
        found: WorkSight,
        group: &mut Group,
        log: &mut Log<'_, E>,
    ) -> Result<bool, Fault<'static>>
        requires alone { goes_alone work ≡ true → group.old.steps.items ≡ [] }
        ensures { DroveBehind (IsWorkDone found.now) result R.Rows R.Settles.is_settled N.passed S.Sink self.old self.new group.old group.new }
    {
        let now = found.now;
        match work {
            Work::Look => Ok(self.sink.look(now, log)),
            Work::TakeIn | Work::Wait => going_on(self.gather(now, group, log)),
            Work::Due => going_on(self.gather_due(now, group, log)),
            Work::Deed { may_ask } => {
                let chance = Chance {
                    may_ask,
                    waits: found.waits,
                    moment: now,
                };
                going_on(self.do_deed(chance, group, log))
            }
        }
    }

    /// Takes in what waits at the wire, tells of strangers and of what found no place, and does the work that comes next, behind those that
    /// share its save; whether the run is over.
    fn step<E: Write>(
        &mut self,
        group: &mut Group,
        log: &mut Log<'_, E>,
    ) -> Result<bool, Fault<'static>>
        ensures { DroveBehind (AtClock IsNextWork) result R.Rows R.Settles.is_settled N.passed S.Sink self.old self.new group.old group.new }
    {
        let now = self.wire.now();
        let waits = self.wire.fetch();
        tell_strangers(self.wire, now, log.err);
        tell_lost(self.wire, now, log.err);
        let tasks = self.sink.tasks();
        let work = self.pacing.next(waits, tasks, now);
        self.end_group(work, now, group, log)?;
        self.work(work, WorkSight { now, waits }, group, log)
    }

    /// One work after the other, until the run is over.
    fn work_on<E: Write>(
        &mut self,
        group: &mut Group,
        log: &mut Log<'_, E>,
    ) -> Result<(), Fault<'static>>
        ensures { DroveBehind Anyhow result R.Rows R.Settles.is_settled N.passed S.Sink self.old self.new group.old group.new }
    {
        for _ in 0..u64::MAX {
            let is_over = self.step(group, log)?;
            if is_over {
                return Ok(());
            }
        }
        Ok(())
    }

    /// The same, and what the last steps handed out is handed on.
    fn work_to_the_end<E: Write>(
        &mut self,
        group: &mut Group,
        log: &mut Log<'_, E>,
    ) -> Result<(), Fault<'static>>
        ensures drove { DroveBehind Anyhow result R.Rows R.Settles.is_settled N.passed S.Sink self.old self.new group.old group.new }
        ensures ended { OnOk result (EndsHandedOn S.handed self.new.sink group.new) }
    {
        self.work_on(group, log)?;
        let now = self.wire.now();
        self.settle_group(now, group, log)
    }

    /// The same, where no step was taken yet. What comes on the way is told to this writer, or faults alone; the fault that ends the run is
    /// not. At a good end the last thing done is that what the last steps released went outside.
    pub fn run<E: Write>(
        &mut self,
        alloc: Global,
        err: &mut E,
        quiet: bool,
    ) -> Result<(), Fault<'static>>
        ensures station { self.new.station.ghost_name ≡ self.old.station.ghost_name }
        ensures wire { self.new.wire.ghost_name ≡ self.old.wire.ghost_name }
        ensures was_kept { R.kept self.new.station.now.rows → R.kept self.old.station.now.rows }
        ensures drove { Drove (known R.Rows R.Settles.is_settled N.passed (fate_of S.Sink)) (post_of self.old) (post_of self.new) (ended result) Anyhow }
        ensures handed { OnOk result (HandsOutLast S.handed self.new.sink) }
    {
        let mut group = Group::new(alloc);
        let mut log = Log { err, quiet };
        self.work_to_the_end(&mut group, &mut log)
    }
}
