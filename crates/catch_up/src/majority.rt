//! What a plant knows of a majority's votes, of its own, and of a number.

ghost use Rattle.std.specs.Prelude.{◌≡◌, ◌||◌, true, false, is_some};
ghost use Rattle.catch_up.specs.Calls.{has_vote_in, is_told_in};
ghost use Rattle.catch_up.specs.Lacking.{AllRestIn, case_of, gone_in};
ghost use Rattle.catch_up.specs.Waves.{has_asked_in};

use crate::calls;
use crate::catch_up::CatchUp;
use crate::lacking::{is_busy, is_known};
use crate::wave::has_asked;
use ballots::Number;

impl CatchUp {
    /// Whether something was asked for and nothing is lacked any more, but no majority told its votes, so that more may be missing.
    pub fn lacks_a_majority(&self) -> bool
        ensures asked { result ≡ true → has_asked_in self.now.wave ≡ true }
        ensures told { result ≡ true → is_told_in self.now.rolls ≡ false }
        ensures rests { result ≡ true → AllRestIn self.now.healing }
    {
        let is_told = calls::is_told(&self.rolls);
        let is_busy = is_busy(&self.healing);
        has_asked(&self.wave) && !is_told && !is_busy
    }

    /// Whether the plant asks on its own.
    pub fn asks(&self) -> bool
        ensures { result ≡ self.now.asks }
    {
        self.asks
    }

    /// Whether the station's own row of a number has a vote. Where it does not know its rows, none has.
    pub fn has_vote(&self, number: Number) -> bool
        ensures { result ≡ has_vote_in number self.now.rolls }
    {
        match &self.rolls {
            Some(rolls) => rolls.has_vote(number),
            None => false,
        }
    }

    /// Whether the circuit may have something of a number, as far as the plant knows: its own row has a vote, it went out here, or it is
    /// lacked.
    pub fn knows(&self, number: Number) -> bool
        ensures { result ≡ (has_vote_in number self.now.rolls || (gone_in self.now.healing number || is_some (case_of self.now.healing number))) }
    {
        self.has_vote(number) || (self.has_gone_out(number) || is_known(&self.healing, number))
    }
}
