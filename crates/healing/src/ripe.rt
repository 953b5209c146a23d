//! Cases by their numbers.

ghost use Rattle.std.specs.Prelude.{◌≡◌, ◌≤◌, true, false, Some, None, IfSome, OnOk, OnErr, ℕ, length, ◌==◌, if◌then◌else◌};
ghost use Rattle.std.specs.Option.{option_map};
ghost use Rattle.protocol.specs.Limits.{last_number};
ghost use Rattle.healing.specs.Cases.{ripe_in};
ghost use Rattle.healing.specs.Lists.{is_among};
ghost use Rattle.healing.specs.Healing.{case_in, CaseIsPut, IsRipeIn, StageIsPut};

use crate::case::{LackStage, LackedNumber};
use ballots::Number;
use std::alloc::AllocError;
use std::collections::BTreeMap;

/// The case of a number.
pub(crate) fn case_of(cases: &BTreeMap<u32, LackedNumber>, number: u32) -> Option<LackedNumber>
    ensures { result ≡ case_in cases.now.entries number }
{
    match cases.get(&number) {
        Some(case) => Some(*case),
        None => None,
    }
}

/// Keeps the case of a number.
pub(crate) fn put_case(
    cases: &mut BTreeMap<u32, LackedNumber>,
    number: u32,
    case: LackedNumber,
) -> Result<(), AllocError>
    ensures ok { OnOk result (CaseIsPut cases.old.entries cases.new.entries number (Some case)) }
    ensures err { OnErr result ((n : ℕ) → case_in cases.new.entries n ≡ case_in cases.old.entries n) }
{
    match cases.insert(number, case) {
        Ok(_) => Ok(()),
        Err(_) => Err(AllocError),
    }
}

/// Takes out the case of a number, if it has one.
pub(crate) fn remove_case(cases: &mut BTreeMap<u32, LackedNumber>, number: u32)
    ensures { CaseIsPut cases.old.entries cases.new.entries number None }
{
    cases.remove(&number);
}

/// Puts a number into another stage, if it has a case. It takes no memory.
pub(crate) fn put_stage(cases: &mut BTreeMap<u32, LackedNumber>, number: u32, stage: LackStage)
    ensures { StageIsPut cases.old.entries cases.new.entries number stage }
{
    if let Some(case) = cases.get_mut(&number) {
        *case = case.with_stage(stage);
    }
}

/// A number, if it is to be sought.
fn ripe_number(cases: &BTreeMap<u32, LackedNumber>, number: u32, now: u64) -> Option<Number>
    ensures some { IfSome result (λ n. (n ≡ number) × IsRipeIn cases.now.entries now n) }
    ensures none { result ≡ None → 1 ≤ number → number ≤ last_number → ripe_in (case_in cases.now.entries number) now ≡ false }
{
    let case = case_of(cases, number)?;
    if case.is_ripe(now) {
        Number::new(number)
    } else {
        None
    }
}

/// The first of these numbers that is to be sought.
pub(crate) fn first_ripe(
    cases: &BTreeMap<u32, LackedNumber>,
    numbers: &[u32],
    now: u64,
) -> Option<Number>
    ensures some { IfSome result (IsRipeIn cases.now.entries now) }
    ensures none { result ≡ None → (n : ℕ) → 1 ≤ n → n ≤ last_number → is_among numbers.now n ≡ true → ripe_in (case_in cases.now.entries n) now ≡ false }
{
    for number in numbers {
        if let Some(found) = ripe_number(cases, *number, now) {
            return Some(found);
        }
    }
    None
}
