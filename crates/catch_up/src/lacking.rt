//! What a plant lacks, where it is known what went out there.

ghost use Rattle.std.specs.Prelude.{◌≡◌, false, is_some};
ghost use Rattle.catch_up.specs.Lacking.{AllRestIn, IsAskingAgain, IsNewsTold, IsOutOf, IsWanting, case_of, gone_in, is_new_in, may_ask_pages, taken_in};

use ballots::Number;
use healing::{Batch, Healing, NumberNews, Want};
use std::alloc::AllocError;

/// How many numbers may be lacked while pages are asked for.
const MOST_LACKED: usize = 4096;

/// A datagram was taken in.
pub(crate) fn count_datagram(healing: &mut Option<Healing>)
    ensures { healing.new ≡ taken_in healing.old }
{
    if let Some(healing) = healing {
        healing.count_datagram();
    }
}

/// There is news of a number.
pub(crate) fn tell(
    healing: &mut Option<Healing>,
    number: Number,
    news: NumberNews,
    now: u64,
) -> Result<(), AllocError>
    ensures { IsNewsTold healing.old healing.new number news now result }
{
    match healing {
        Some(healing) => healing.tell(number, news, now),
        None => Ok(()),
    }
}

/// A number went out.
pub(crate) fn leave(healing: &mut Option<Healing>, number: Number)
    ensures { IsOutOf healing.old healing.new number }
{
    if let Some(healing) = healing {
        healing.went_out(number);
    }
}

/// Whether a number went out.
pub(crate) fn has_gone_out(healing: &Option<Healing>, number: Number) -> bool
    ensures { result ≡ gone_in healing.now number }
{
    match healing {
        Some(healing) => healing.has_gone_out(number),
        None => false,
    }
}

/// Whether something is known of a number that did not go out.
pub(crate) fn is_known(healing: &Option<Healing>, number: Number) -> bool
    ensures { result ≡ is_some (case_of healing.now number) }
{
    match healing {
        Some(healing) => healing.knows(number),
        None => false,
    }
}

/// Whether a number is new: it is known what went out, this one did not, and it is not known.
pub(crate) fn is_new(healing: &Option<Healing>, number: Number) -> bool
    ensures { result ≡ is_new_in healing.now number }
{
    match healing {
        Some(healing) => !healing.has_gone_out(number) && !healing.knows(number),
        None => false,
    }
}

/// Whether fewer numbers are known that did not go out than keep pages from being asked for.
pub(crate) fn may_ask_pages(healing: &Option<Healing>) -> bool
    ensures { result ≡ may_ask_pages healing.now }
{
    match healing {
        Some(healing) => healing.len() < MOST_LACKED,
        None => false,
    }
}

/// Whether a number is recalled or sought, or waits.
pub(crate) fn is_busy(healing: &Option<Healing>) -> bool
    ensures { result ≡ false → AllRestIn healing.now }
{
    match healing {
        Some(healing) => healing.is_busy(),
        None => false,
    }
}

/// What the plant wants next about what it lacks.
pub(crate) fn want(
    healing: &mut Option<Healing>,
    now: u64,
    waits: bool,
) -> Result<Option<Want>, AllocError>
    ensures { IsWanting healing.old healing.new now result }
{
    match healing {
        Some(healing) => healing.next(now, waits),
        None => Ok(None),
    }
}

/// What is recalled and to be asked for once more: nothing while datagrams wait, which may tell it.
pub(crate) fn again(healing: &mut Option<Healing>, now: u64, waits: bool) -> Option<Batch>
    ensures { IsAskingAgain healing.old healing.new now result }
{
    if waits {
        return None;
    }
    match healing {
        Some(healing) => healing.again(now),
        None => None,
    }
}
