//! Seconds, within which a member is told only so much.

ghost use Rattle.std.specs.Prelude.{◌≡◌};
ghost use Rattle.roll_call.specs.Answers.{is_second_on};

/// How long a second is, in milliseconds.
const SECOND: u64 = 1000;

/// Whether the second that began last, if one did, is not over yet, at a moment in milliseconds.
pub fn is_second_on(since: Option<u64>, now: u64) -> bool
    ensures { result ≡ is_second_on since now }
{
    match since {
        Some(since) => now.saturating_sub(since) < SECOND,
        None => false,
    }
}
