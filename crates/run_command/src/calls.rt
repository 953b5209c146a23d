//! What the station is asked for a file among the offers, and which of its refusals stand.

ghost use Rattle.std.specs.Prelude.{◌≡◌, ◌↔◌, ℕ, IsTrue};
ghost use Rattle.driver.specs.Calls.{call_of as asked_by};
ghost use Rattle.run_command.specs.Calls.{call_of, IsOfOffer};

use driver::Call;
use folders::Wish;
use station::StepRefusal;
use tape_frames::Entry;

/// What the station is asked for what a file asks for its number: its entry is offered or withdrawn, or it is sought.
pub(crate) fn call_for(wish: &Wish, number: u32) -> Call<'_>
    ensures { (now : ℕ) → asked_by result now ≡ call_of wish.now number now }
{
    match wish {
        Wish::Offered(Entry::Tape(tape)) => Call::Offer { number, tape },
        Wish::Offered(Entry::Void) => Call::Withdraw { number },
        Wish::Sought => Call::Seek { number },
    }
}

/// Whether a refusal is of what is offered, so that it would be refused ever again.
pub(crate) fn is_of_offer(refusal: StepRefusal) -> bool
    ensures { IsTrue result ↔ IsOfOffer refusal }
{
    matches!(
        refusal,
        StepRefusal::BadNumber
            | StepRefusal::WireTooOld
            | StepRefusal::TapeFaulty(_)
            | StepRefusal::RoundsSpent
    )
}
