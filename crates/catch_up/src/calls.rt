//! What a plant knows of the votes of its circuit, where it knows its own rows.

ghost use Rattle.std.specs.Prelude.{◌≡◌};
ghost use Rattle.catch_up.specs.Calls.{Answered, Asked, Came, Heard, IsForMe, Noted, Voted, dropped_in, is_told_in, is_wanted_in, told_by_in};

use ballots::Number;
use node_core::Note;
use roll_call::RollCall;
use rolls::Roll;

/// A packet came or a vote was saved.
pub(crate) fn came(rolls: &mut Option<RollCall>, now: u64)
    ensures { Came rolls.old rolls.new now }
{
    if let Some(rolls) = rolls {
        rolls.came(now);
    }
}

/// The own row of a number has a vote, which is saved.
fn voted(rolls: &mut Option<RollCall>, number: Number, now: u64)
    ensures { Voted rolls.old rolls.new number now }
{
    if let Some(rolls) = rolls {
        rolls.voted(number);
        rolls.came(now);
    }
}

/// A step about a number was done with this note: where it saved a vote, the number is among the own votes.
pub(crate) fn note_vote(rolls: &mut Option<RollCall>, number: Number, note: &Note, now: u64)
    ensures { Noted note.now rolls.old rolls.new number now }
{
    match note {
        Note::Proposed { .. } | Note::Voted { .. } => voted(rolls, number, now),
        _ => {}
    }
}

/// Whether a roll tells what was asked for.
pub(crate) fn is_wanted(rolls: &Option<RollCall>, roll: &Roll) -> bool
    ensures { result ≡ is_wanted_in roll.now rolls.now }
{
    match rolls {
        Some(rolls) => rolls.is_wanted(roll),
        None => false,
    }
}

/// A roll of this circuit came, from another member of it.
#[tactic(auto, using(crate::proofs::Keeping::after_own))]
pub(crate) fn hear(rolls: &mut Option<RollCall>, roll: &Roll)
    requires { IsForMe rolls.old roll.now }
    ensures { Heard roll.now rolls.old rolls.new }
{
    if let Some(rolls) = rolls {
        rolls.hear(roll);
    }
}

/// The next roll that answers.
pub(crate) fn reply(rolls: &mut Option<RollCall>, now: u64) -> Option<Roll>
    ensures { Answered rolls.old rolls.new now result }
{
    match rolls {
        Some(rolls) => rolls.reply(now),
        None => None,
    }
}

/// The next roll that asks.
pub(crate) fn question(rolls: &mut Option<RollCall>, now: u64, may_ask_pages: bool) -> Option<Roll>
    ensures { Asked rolls.old rolls.new now may_ask_pages result }
{
    match rolls {
        Some(rolls) => rolls.question(now, may_ask_pages),
        None => None,
    }
}

/// Whether a majority told its votes.
pub(crate) fn is_told(rolls: &Option<RollCall>) -> bool
    ensures { result ≡ is_told_in rolls.now }
{
    match rolls {
        Some(rolls) => rolls.is_told(),
        None => false,
    }
}

/// How many others told their votes.
pub(crate) fn told_by(rolls: &Option<RollCall>) -> u8
    ensures { result ≡ told_by_in rolls.now }
{
    match rolls {
        Some(rolls) => rolls.told_by(),
        None => 0,
    }
}

/// How many asks of others were dropped.
pub(crate) fn dropped(rolls: &Option<RollCall>) -> u64
    ensures { result ≡ dropped_in rolls.now }
{
    match rolls {
        Some(rolls) => rolls.dropped(),
        None => 0,
    }
}
