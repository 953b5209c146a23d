//! What went out before a station kept that.

ghost use Rattle.std.specs.Prelude.{◌≡◌, IfOk};
ghost use Rattle.catch_up.specs.Before.{IsAdded, IsBegunBefore, collects, handed_out, left_before, settled_before};

use ballots::Number;
use gone_out::Numbers;
use std::alloc::{AllocError, Global};

/// In the first start that keeps what went out: the numbers that others have a vote of and that are not known here, until a majority told
/// its votes.
#[derive(Drop)]
pub(crate) struct Before {
    /// Those numbers; `None` in another start, and once they were handed out.
    numbers: Option<Numbers>,
    /// Whether a majority told its votes.
    is_over: bool,
}

impl Before {
    /// None yet; whether it is such a start.
    pub(crate) fn new(alloc: Global, is_first: bool) -> Result<Before, AllocError>
        ensures { IfOk result (IsBegunBefore is_first) }
    {
        let numbers = if is_first {
            Some(Numbers::new(alloc)?)
        } else {
            None
        };
        Ok(Before {
            numbers,
            is_over: false,
        })
    }

    /// Whether what others have and is not known here went out before.
    pub(crate) fn collects(&self) -> bool
        ensures { result ≡ collects self.now }
    {
        self.numbers.is_some() && !self.is_over
    }

    /// A number went out before.
    pub(crate) fn add(&mut self, number: Number)
        ensures { IsAdded self.old self.new number }
    {
        if let Some(numbers) = &mut self.numbers {
            numbers.insert(number);
        }
    }

    /// Whether a majority told its votes by now: then what went out before is known.
    pub(crate) fn settle(&mut self, is_told: bool)
        ensures { self.new ≡ settled_before is_told self.old }
    {
        self.is_over = self.is_over || is_told;
    }

    /// What went out before, once a majority told its votes.
    pub(crate) fn take(&mut self) -> Option<Numbers>
        ensures result { result ≡ handed_out self.old }
        ensures rest { self.new ≡ left_before self.old }
    {
        if !self.is_over {
            return None;
        }
        self.numbers.take()
    }
}
