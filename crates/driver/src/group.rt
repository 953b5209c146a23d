//! Steps that share one save: what they hand out waits until all that the station saved is stored.

ghost use Rattle.std.specs.Prelude.{◌≡◌, [], ◌∷◌, Ok, OnOk};
ghost use Rattle.driver.specs.Events.{stored};
ghost use Rattle.wire.specs.Passing.{Passes};
ghost use Rattle.driver.specs.Driving.{IsHeld, sends_of};
ghost use Rattle.driver.specs.Grouping.{comes_late, ends_group, goes_alone, has_waited, is_full, one_more, HasAdded};

use crate::desk::Desk;
use crate::log::Log;
use crate::sending::send_all;
use crate::sink::TakenStep;
use command_ends::Fault;
use pace::Work;
use std::alloc::Global;
use std::io::Write;
use wire::Wire;

/// How many steps that send or release something share a save at most.
const MOST_STEPS: usize = 16;

/// How many works share a save at most: a flood of datagrams that call for no reply keeps none waiting longer than so many.
const MOST_WORKS: u8 = 32;

/// For how long deeds share the save of the works before them, in milliseconds: from when the first work that is counted began. The work that
/// ends a group is not counted in the next, so a reply of that work waits for the work itself, for so long, and for one deed more.
const MOST_WAIT: u64 = 2;

/// The steps of a group.
#[derive(Drop)]
pub(crate) struct Group {
    /// Those that send or release something, in order.
    pub(crate) steps: Vec<TakenStep>,
    /// How many works share the save so far.
    pub(crate) works: u8,
    /// When the first of them began, in milliseconds.
    pub(crate) since: u64,
}

/// Whether a work shares no save with the steps before it: a look writes files, and a wait may take long.
fn goes_alone(work: Work) -> bool
    ensures { result ≡ goes_alone work }
{
    matches!(work, Work::Look | Work::Wait)
}

/// Whether a work is one for which replies have waited long enough: they wait for deeds no longer.
fn comes_late(work: Work, has_waited: bool) -> bool
    ensures { result ≡ comes_late work has_waited }
{
    matches!(work, Work::Deed { .. }) && has_waited
}

impl Group {
    /// No step was taken yet.
    pub(crate) fn new(alloc: Global) -> Group
        ensures { result.steps.items ≡ [] }
    {
        Group {
            steps: Vec::new(alloc),
            works: 0,
            since: 0,
        }
    }

    /// Whether these are as many as share a save.
    fn is_full(&self) -> bool
        ensures { result ≡ is_full self.now }
    {
        self.steps.len() >= MOST_STEPS || self.works >= MOST_WORKS
    }

    /// Whether deeds share the save no more, at a moment in milliseconds.
    fn has_waited(&self, now: u64) -> bool
        ensures { result ≡ has_waited now self.now }
    {
        self.works > 0 && now.saturating_sub(self.since) >= MOST_WAIT
    }

    /// Whether the work that comes next at a moment in milliseconds can't share the save of those before it, or they are as many as share one.
    pub(crate) fn ends_before(&self, next: Work, now: u64) -> bool
        ensures { result ≡ ends_group next now self.now }
    {
        goes_alone(next) || comes_late(next, self.has_waited(now)) || self.is_full()
    }

    /// One work more shares the save, at a moment in milliseconds.
    pub(crate) fn go_on(&mut self, now: u64)
        ensures { self.new ≡ one_more now self.old }
    {
        if self.works == 0 {
            self.since = now;
        }
        self.works = self.works.saturating_add(1).min(MOST_WORKS);
    }

    /// Holds a step until what it saved is stored: the desk notes it, and it waits behind those before it, unless it neither sends nor
    /// releases anything. There may be no memory for it.
    pub(crate) fn hold<S: Desk, E: Write>(
        &mut self,
        step: TakenStep,
        desk: &mut S,
        log: &mut Log<'_, E>,
    ) -> Result<(), Fault<'static>>
        ensures still { S.is_still desk.old desk.new }
        ensures added { OnOk result (HasAdded step self.old self.new) }
        ensures holds { IsHeld S.Sink desk.old desk.new self.old self.new step.answer result }
    {
        desk.note(&step, log)?;
        if step.answer.out.is_empty() && step.answer.release.is_none() {
            return Ok(());
        }
        self.steps.push(step)?;
        Ok(())
    }

    /// Hands on what the steps handed out, at a moment in milliseconds: their datagrams to the wire, each once, in order, and then what they
    /// released to the desk. What they saved is stored before.
    pub(crate) fn hand_on<N: Wire, S: Desk, E: Write>(
        &mut self,
        wire: &mut N,
        desk: &mut S,
        now: u64,
        log: &mut Log<'_, E>,
    )
        ensures sends { Passes (N.passed wire.old) (N.passed wire.new) (sends_of self.old) }
        ensures lived { S.lived desk.old desk.new (stored (Ok tt) ∷ []) }
        ensures handed { S.handed desk.old desk.new self.old.steps.items }
        ensures none { self.new.steps.items ≡ [] }
        ensures begins { self.new.works ≡ 0 }
    {
        for step in &self.steps {
            send_all(step.answer.out.as_slice(), wire, log.err);
        }
        desk.hand_out(self.steps.as_slice(), now, log);
        self.steps.clear();
        self.works = 0;
    }
}
