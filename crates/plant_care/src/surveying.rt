//! How all numbers stand at a plant: how many went out there, and which are missing.

ghost use Rattle.std.specs.Prelude.{◌≡◌, ◌&&◌, ◌||◌, not, true, IfSome};
ghost use Rattle.catch_up.specs.Calls.{has_vote_in};
ghost use Rattle.catch_up.specs.Lacking.{gone_in};
ghost use Rattle.gone_out.specs.Numbers.{has};
ghost use Rattle.plant_care.specs.Surveying.{is_lacked, is_missing};

use crate::care::Care;
use ballots::Number;
use gone_out::{Numbers, Range};
use std::alloc::{AllocError, Global};

/// How many ranges of what is missing are told.
const MOST_RANGES: usize = 20;

/// How all numbers stand.
#[derive(Drop)]
pub struct NumberSurvey {
    /// How many went out, and the greatest of them, or 0.
    pub released: u32,
    pub greatest: u32,
    /// The first ranges of what is missing, 20 at most, rising.
    pub missing: Vec<Range>,
    /// Whether there are more.
    pub more: bool,
}

/// A number is lacked from now on. Where there is no memory for the first, it is not kept in mind.
pub(crate) fn add_lacked(alloc: Global, lacked: &mut Option<Numbers>, number: Number) {
    if lacked.is_none() {
        *lacked = Numbers::new(alloc).ok();
    }
    if let Some(numbers) = lacked {
        numbers.insert(number);
    }
}

/// Whether a number is among those that were asked for.
fn is_lacked(lacked: &Option<Numbers>, number: Number) -> bool
    ensures { result ≡ is_lacked lacked.now number }
{
    match lacked {
        Some(numbers) => numbers.contains(number),
        None => false,
    }
}

impl NumberSurvey {
    /// Nothing was looked at yet.
    fn new(alloc: Global) -> NumberSurvey {
        NumberSurvey {
            released: 0,
            greatest: 0,
            missing: Vec::new(alloc),
            more: false,
        }
    }

    /// A number went out.
    fn add_released(&mut self, number: Number) {
        self.released = self.released.saturating_add(1);
        self.greatest = number.get();
    }

    /// Whether the last range goes on with a number; it does from then on.
    fn goes_on(&mut self, number: Number) -> bool {
        match self.missing.as_mut_slice().last_mut() {
            Some(range) => {
                if range.last.get() + 1 == number.get() {
                    range.last = number;
                    return true;
                }
                false
            }
            None => false,
        }
    }

    /// A number is missing, which is above those before.
    fn add_missing(&mut self, number: Number) -> Result<(), AllocError> {
        if self.more || self.goes_on(number) {
            return Ok(());
        }
        if self.missing.len() == MOST_RANGES {
            self.more = true;
            return Ok(());
        }
        self.missing.push(Range {
            first: number,
            last: number,
        })?;
        Ok(())
    }
}

impl Care {
    /// Whether a number is missing here: it did not go out, and the station's own row of it has a vote, or it was asked for since nothing was
    /// lacked last.
    pub fn is_missing(&self, number: Number) -> bool
        ensures { result ≡ is_missing self.now number }
    {
        !self.catch_up.has_gone_out(number)
            && (self.catch_up.has_vote(number) || is_lacked(&self.lacked, number))
    }

    /// Takes a number into a survey.
    fn survey_number(&self, survey: &mut NumberSurvey, number: Number) -> Result<(), AllocError> {
        if self.catch_up.has_gone_out(number) {
            survey.add_released(number);
            return Ok(());
        }
        if self.is_missing(number) {
            return survey.add_missing(number);
        }
        Ok(())
    }

    /// How all numbers stand.
    ///
    /// # Errors
    ///
    /// Out of memory.
    pub fn survey(&self) -> Result<NumberSurvey, AllocError> {
        let mut survey = NumberSurvey::new(self.alloc);
        for value in 1..Number::LAST + 1 {
            if let Some(number) = Number::new(value) {
                self.survey_number(&mut survey, number)?;
            }
        }
        Ok(survey)
    }
}
