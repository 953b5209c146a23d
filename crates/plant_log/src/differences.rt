//! What shows that a station of the configured addresses has another configuration than this one.

ghost use Rattle.std.specs.Prelude.{◌≡◌, Some, if◌then◌else◌};
ghost use Rattle.plant_log.specs.Differing.{differ_after, differ_told, is_time, no_differences, told_at};

use folders::{TELL, has_passed};
use refusals::StepRefusal;

/// When each was told last, in milliseconds.
#[derive(Clone, Copy)]
pub(crate) struct Differences {
    /// That a station speaks for another circuit.
    circuit: Option<u64>,
    /// That it takes this one for another member: its list of addresses has another order.
    member: Option<u64>,
    /// That it speaks as a member that this circuit does not have, or as this one: its list of addresses is another.
    sender: Option<u64>,
}

/// Whether it is time to tell again at a moment what was told at this one, if it was: a second has passed. Both are in milliseconds.
pub fn is_time(told: Option<u64>, now: u64) -> bool
    ensures { result ≡ is_time told now }
{
    match told {
        Some(told) => has_passed(told, TELL, now),
        None => true,
    }
}

/// The same; where it is, it is told now.
fn is_told_now(told: &mut Option<u64>, now: u64) -> bool
    ensures time { result ≡ is_time told.old now }
    ensures told { told.new ≡ told_at told.old now }
{
    let is_told = is_time(*told, now);
    if is_told {
        *told = Some(now);
    }
    is_told
}

impl Differences {
    /// Nothing was told yet.
    pub(crate) fn new() -> Differences
        ensures { result ≡ no_differences }
    {
        Differences {
            circuit: None,
            member: None,
            sender: None,
        }
    }

    /// Whether a refusal at a moment shows a difference that is to be told: each once a second at most.
    pub(crate) fn are_told_by(&mut self, refusal: StepRefusal, now: u64) -> bool
        ensures told { result ≡ differ_told self.old refusal now }
        ensures after { self.new ≡ differ_after self.old refusal now }
    {
        match refusal {
            StepRefusal::WrongCircuit => is_told_now(&mut self.circuit, now),
            StepRefusal::NotForMe => is_told_now(&mut self.member, now),
            StepRefusal::Stranger => is_told_now(&mut self.sender, now),
            _ => false,
        }
    }
}
