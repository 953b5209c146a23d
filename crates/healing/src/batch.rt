//! The numbers that are recalled together.

ghost use Rattle.std.specs.Prelude.{◌≡◌, ◌≤◌, ◌+◌, ◌-◌, ℕ, true, IfOk, IfSome, IsTrue, length};
ghost use Rattle.protocol.specs.Limits.{last_number};
ghost use Rattle.healing.specs.Healing.{AreDueIn, IsDueIn};
ghost use Rattle.healing.specs.Queue.{stands_in};

use crate::case::{LackStage, LackedNumber};
use crate::due::Queue;
use crate::ripe::case_of;
use crate::wanted::Batch;
use arrayvec::ArrayVec;
use recalls::MOST_RECALLED;
use std::alloc::AllocError;
use std::collections::BTreeMap;

/// Numbers, at most as many as are recalled at a time.
pub(crate) type Few = ArrayVec<u32, MOST_RECALLED>;

/// The numbers whose moments have come and that are due, at most so many; those that wait but are not due yet are put back.
pub(crate) fn take_due(
    cases: &BTreeMap<u32, LackedNumber>,
    queue: &mut Queue,
    room: usize,
    now: u64,
) -> Result<Few, AllocError>
    requires { room ≤ 64 }
    ensures few { IfOk result (λ few. length few.items ≤ room) }
    ensures waiting { (n : ℕ) → stands_in queue.old.waiting.keys n ≡ true → stands_in queue.new.waiting.keys n ≡ true }
{
    let mut few = ArrayVec::new();
    for _ in 0..room {
        let Some(number) = queue.take(now) else {
            break;
        };
        if let Some(case) = case_of(cases, number) {
            if case.is_due(now) {
                few.push(number);
            } else if case.stage == LackStage::Waiting {
                queue.put(case.due(), number)?;
            }
        }
    }
    Ok(few)
}

/// Whether a number may be recalled.
fn may_be_recalled(cases: &BTreeMap<u32, LackedNumber>, number: u32, now: u64) -> bool
    ensures { IsTrue result → (number ≤ last_number) × IsDueIn cases.now.entries now number }
{
    match case_of(cases, number) {
        Some(case) => number <= 999_999 && case.is_due(now),
        None => false,
    }
}

/// Of these numbers those that are above the one before and due, as a batch; `None` where none is.
pub(crate) fn batch_of(
    cases: &BTreeMap<u32, LackedNumber>,
    numbers: &Few,
    now: u64,
) -> Option<Batch>
    ensures due { IfSome result (λ batch. AreDueIn cases.now.entries now batch) }
    ensures few { IfSome result (λ batch. length batch ≤ length numbers.now.items) }
{
    let mut rising = ArrayVec::new();
    let mut above = 0;
    for number in numbers.as_slice() {
        if *number > above && may_be_recalled(cases, *number, now) {
            rising.push(*number);
            above = *number;
        }
    }
    if rising.is_empty() {
        None
    } else {
        Some(Batch { numbers: rising })
    }
}
