//! The numbers that are asked for once more while they are recalled.

ghost use Rattle.std.specs.Prelude.{◌≡◌, ◌≤◌, ℕ, true, false, None, [], IfSome, length};
ghost use Rattle.std.specs.List.Sorted.{IsSorted};
ghost use Rattle.std.specs.Ordering.{nat_cmp};
ghost use Rattle.protocol.specs.Limits.{last_number};
ghost use Rattle.healing.specs.Cases.{awaited_in};
ghost use Rattle.healing.specs.Lists.{Rise, is_among};
ghost use Rattle.healing.specs.Healing.{case_in, may_ask, AreAllIn, AreOnly};

use crate::batch::Few;
use crate::case::{LackedNumber, is_awaited};
use crate::lists::still_recalled;
use crate::ripe::case_of;
use crate::wanted::Batch;
use arrayvec::ArrayVec;
use recalls::MOST_RECALLED;
use std::collections::BTreeMap;

/// The least from one time to the next at which numbers are asked for once more, in milliseconds.
const PAUSE: u64 = 300;

/// Whether numbers may be asked for once more, by when that was done last.
pub(crate) fn may_ask(asked: Option<u64>, now: u64) -> bool
    ensures { result ≡ may_ask asked now }
{
    match asked {
        Some(at) => now.saturating_sub(at) >= PAUSE,
        None => true,
    }
}

/// Whether a number is at most the last circuit number, and is asked for once more.
fn may_be_repeated(cases: &BTreeMap<u32, LackedNumber>, number: u32, now: u64) -> bool
    ensures high { result ≡ true → number ≤ last_number }
    ensures is { result ≡ true → awaited_in (case_in cases.now.entries number) now ≡ true }
    ensures all { number ≤ last_number → awaited_in (case_in cases.now.entries number) now ≡ true → result ≡ true }
{
    number <= 999_999 && is_awaited(case_of(cases, number), now)
}

/// Of these numbers, which are sorted, those that are asked for once more, each once.
fn awaited(cases: &BTreeMap<u32, LackedNumber>, numbers: &[u32], now: u64) -> Few
    requires few { length numbers.now ≤ 64 }
    requires sorted { IsSorted nat_cmp numbers.now }
    ensures all { AreAllIn cases.now.entries now numbers.now result.items }
    ensures only { AreOnly cases.now.entries now result.items }
    ensures rise { Rise 0 result.items }
    ensures few { length result.items ≤ 64 }
{
    let mut rising = ArrayVec::new();
    let mut above = 0;
    for number in numbers {
        if *number > above && may_be_repeated(cases, *number, now) {
            rising.push(*number);
            above = *number;
        }
    }
    rising
}

/// Numbers as a batch; `None` where there are none.
fn batch_with(rising: Few) -> Option<Batch>
    requires rise { Rise 0 rising.items }
    requires few { length rising.items ≤ 64 }
    ensures some { IfSome result (λ batch. batch ≡ rising.items) }
    ensures none { result ≡ None → rising.items ≡ [] }
{
    if rising.is_empty() {
        None
    } else {
        Some(Batch { numbers: rising })
    }
}

/// Of the numbers that are recalled, all of which are among these, those that are asked for once more; `None` where none is.
pub(crate) fn repeated(
    cases: &BTreeMap<u32, LackedNumber>,
    recalled: &ArrayVec<u32, MOST_RECALLED>,
    now: u64,
) -> Option<Batch>
    ensures all { IfSome result (AreAllIn cases.now.entries now recalled.now.items) }
    ensures only { IfSome result (AreOnly cases.now.entries now) }
    ensures none { result ≡ None → (n : ℕ) → 1 ≤ n → n ≤ last_number → is_among recalled.now.items n ≡ true → awaited_in (case_in cases.now.entries n) now ≡ false }
{
    let mut numbers = still_recalled(cases, recalled);
    numbers.as_mut_slice().sort_unstable();
    batch_with(awaited(cases, numbers.as_slice(), now))
}
