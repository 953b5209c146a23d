//! What a station starts from.

ghost use Rattle.std.specs.Prelude.{◌≡◌, ℕ, None, IfOk, OnOk};
ghost use Rattle.protocol.specs.Limits.{last_number};
ghost use Rattle.healing.specs.Healing.{case_at};
ghost use Rattle.catch_up.specs.Starting.{AreRowsTold, AsksFrom, CallsFrom, IsRowTold, StartsWith};

use crate::wave::AskedNumbers;
use ballots::Number;
use gone_out::{Known, Numbers, Origin};
use healing::{Healing, NumberNews};
use roll_call::RollCall;
use std::alloc::{AllocError, Global};

/// What a station starts from.
#[derive(Drop)]
pub struct Start {
    /// Whose station it is.
    pub own: Origin,
    /// The numbers that have a saved row there, where that is known. Where it is not (`None`), the station answers no rolls and asks for
    /// nothing, and it is not known what went out.
    pub known: Option<Known>,
    /// The numbers that went out there, where that is known. Where it is not (`None`), nothing is lacked: the station answers others, and
    /// asks for nothing.
    pub gone: Option<Numbers>,
    /// Whether this is the first start that keeps what went out, and there are rows already: what others have a vote of, and what is not
    /// known here, went out before, until a majority told its votes.
    pub is_first: bool,
    /// Whether the station asks, recalls and searches on its own. Where it does not, it still answers others.
    pub asks: bool,
}

/// What is known of a number at the start, if it has a row.
fn tell_row(
    healing: &mut Healing,
    known: &Known,
    number: Number,
    now: u64,
) -> Result<(), AllocError>
    requires { case_at healing.old number ≡ None }
    ensures { OnOk result (IsRowTold known.now number now healing.old healing.new) }
{
    if !known.rows.contains(number) {
        return Ok(());
    }
    let votes = known.votes.contains(number);
    healing.tell(number, NumberNews::Saved { votes }, now)
}

/// What is known at the start of the numbers that have a row and did not go out.
fn tell_rows(healing: &mut Healing, known: &Known, now: u64) -> Result<(), AllocError>
    requires { (n : ℕ) → case_at healing.old n ≡ None }
    ensures { OnOk result (AreRowsTold known.now now healing.old healing.new) }
{
    for before in 0..Number::LAST {
        let Some(number) = Number::new(before + 1) else {
            unreachable!();
        };
        tell_row(healing, known, number, now)?;
    }
    Ok(())
}

/// What is lacked at the start: the numbers that have a row and did not go out, where both are known.
pub(crate) fn healing_of(
    alloc: Global,
    start: &mut Start,
    now: u64,
) -> Result<Option<Healing>, AllocError>
    ensures starts { IfOk result (StartsWith start.old now) }
    ensures rest { start.new ≡ record start.old { gone = None } }
{
    let Some(gone) = start.gone.take() else {
        return Ok(None);
    };
    let Some(known) = &start.known else {
        return Ok(None);
    };
    let mut healing = Healing::new(alloc, start.own.member, gone);
    tell_rows(&mut healing, known, now)?;
    Ok(Some(healing))
}

/// What the station knows of votes at the start, where it is known what has rows.
pub(crate) fn calls_of(
    alloc: Global,
    own: Origin,
    known: Option<Known>,
    now: u64,
) -> Result<Option<RollCall>, AllocError>
    ensures { IfOk result (λ c. CallsFrom own known now c) }
{
    match known {
        Some(known) => Ok(Some(RollCall::new(alloc, own, known.votes, now)?)),
        None => Ok(None),
    }
}

/// What is asked for at the start: nothing yet; `None` where nothing ever is.
pub(crate) fn asking_of(alloc: Global, asks: bool) -> Result<Option<AskedNumbers>, AllocError>
    ensures { IfOk result (AsksFrom asks) }
{
    if asks {
        Ok(Some(AskedNumbers::new(alloc)?))
    } else {
        Ok(None)
    }
}
