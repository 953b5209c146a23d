//! What a station that stays up does beside what comes and what is due.

ghost use Rattle.std.specs.Prelude.{List, [], ◌∷◌, ℕ, IfSome, Ok};
ghost use Rattle.driver.specs.Events.{stored};
ghost use Rattle.driver.specs.Calls.{call_of};
ghost use Rattle.driver.specs.Fates.{IsNoted};
ghost use Rattle.driver.specs.Todos.{IsGoodTodo};

use crate::calls::Call;
use crate::log::Log;
use crate::pacing::Tasks;
use crate::sink::{Sink, TakenStep};
use ballots::Number;
use catch_up::Errand;
use command_ends::Fault;
use folders::FileRequest;
use station::StepRefusal;
use std::io::Write;

/// A file for which the station was asked, and refused.
#[derive(Clone, Copy)]
pub struct Denied {
    pub request: FileRequest,
    pub refusal: StepRefusal,
    /// When it was, in milliseconds.
    pub moment: u64,
}

/// How a deed is done.
#[derive(Clone, Copy)]
pub struct Chance {
    /// Whether the station may be asked for a file.
    pub may_ask: bool,
    /// Whether a datagram waits in memory.
    pub waits: bool,
    /// The moment, in milliseconds.
    pub moment: u64,
}

/// What the driver is to do for the desk.
#[derive(Drop)]
pub enum Todo {
    /// The station is asked for this file.
    Ask(FileRequest),
    /// An errand is run by which the station catches up, or others do.
    Run(Errand),
}

/// A search of catching up that the station did not take.
#[derive(Clone, Copy)]
pub struct Declined {
    pub number: Number,
    pub refusal: StepRefusal,
    /// When it was, in milliseconds.
    pub moment: u64,
}

/// The desk of a station that stays up: where its releases go, and what is done with the files among its offers. Moments are in
/// milliseconds.
pub trait Desk: Sink {
    // Nothing was done outside of the process meanwhile.
    ghost is_still: { Self → Self → Type 0 };

    ghost use Rattle.driver.specs.declared.sink.TakenStep.{TakenStep};

    // What exactly these steps released went outside meanwhile, as far as that could be done.
    ghost handed: { Self → Self → List TakenStep → Type 0 };

    /// Keeps in mind what a step of the station did and released. Nothing of it goes outside: what the step saved may not be stored yet. It
    /// fails where there is no memory for it.
    fn note<E: Write>(
        &mut self,
        step: &TakenStep,
        log: &mut Log<'_, E>,
    ) -> Result<(), Fault<'static>>
        ensures noted { IsNoted Self.lived Self.front Self.may self.old self.new step.now.answer result }
        ensures still { is_still self.old self.new };

    /// What these steps released goes outside, at a moment: what they saved is stored, and their datagrams are sent. They are those that were
    /// noted since the last call, in order, but such as neither sent nor released anything.
    fn hand_out<E: Write>(&mut self, steps: &[TakenStep], now: u64, log: &mut Log<'_, E>)
        ensures lived { Self.lived self.old self.new (stored (Ok tt) ∷ []) }
        ensures handed { handed self.old self.new steps.now };

    /// What is to be done with files.
    fn tasks(&mut self) -> Tasks
        ensures { Self.lived self.old self.new [] };

    /// A look at the folders; whether the run is over.
    fn look<E: Write>(&mut self, now: u64, log: &mut Log<'_, E>) -> bool
        ensures { Self.lived self.old self.new [] };

    /// Does a deed with a file, or answers what the driver is to do.
    fn deed<E: Write>(&mut self, chance: Chance, log: &mut Log<'_, E>) -> Option<Todo>
        ensures lived { Self.lived self.old self.new [] }
        ensures good { IfSome result IsGoodTodo };

    /// What the station is asked for a file; nothing where that is not known any more.
    fn call(&self, request: &FileRequest) -> Option<Call<'_>>
        ensures { IfSome result (λ call. (now : ℕ) → Self.may self.now (call_of call now)) };

    /// The station refused what it was asked for a file.
    fn deny<E: Write>(&mut self, denied: Denied, log: &mut Log<'_, E>)
        ensures { Self.lived self.old self.new [] };

    /// The station did not take a search of catching up.
    fn decline<E: Write>(&mut self, declined: Declined, log: &mut Log<'_, E>)
        ensures { Self.lived self.old self.new [] };
}
