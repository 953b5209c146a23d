//! The slot of a member: whether it is counted, and what it reported.

ghost use Rattle.std.specs.Prelude.{◌≡◌, Some, None, IfOk, OnErr, is_some, option_copied};
ghost use Rattle.proposer.specs.Slots.{reported};

use ballots::Vote;
use std::alloc::{AllocError, Global};
use std::marker::Model;

/// What a member reported, if it is counted. A vote stands in a box, so that a slot is small. Clauses see the report.
#[derive(Drop)]
pub(crate) struct ReportSlot {
    report: Option<Option<Box<Vote>>>,
}

impl Model for ReportSlot {
    ghost use Rattle.std.specs.Prelude.{Option};
    ghost use Rattle.protocol.specs.Rows.{Vote as VoteValue};
    ghost use Rattle.proposer.specs.Slots.{unboxed};

    ghost Value = { Option (Option VoteValue) };

    ghost view = { λ s. unboxed s.report };
}

impl Default for ReportSlot {
    ghost is_default = { λ slot. slot ≡ None };

    /// The member is not counted.
    fn default() -> ReportSlot {
        ReportSlot { report: None }
    }
}

impl ReportSlot {
    /// The member is counted, with what it reported. The report is taken out of where it stands.
    /// Only a vote takes memory; where that is refused, it is back where it stood.
    pub fn counted(alloc: Global, report: &mut Option<Vote>) -> Result<ReportSlot, AllocError>
        ensures counted { IfOk result (λ slot. slot ≡ Some report.old) }
        ensures err { OnErr result (report.new ≡ report.old) }
    {
        let Some(vote) = report.take() else {
            return Ok(ReportSlot { report: Some(None) });
        };
        match Box::new(alloc, vote) {
            Ok(vote) => Ok(ReportSlot {
                report: Some(Some(vote)),
            }),
            Err(refused) => {
                *report = Some(refused.value);
                Err(AllocError)
            }
        }
    }

    /// Whether the member is counted.
    pub fn is_counted(&self) -> bool
        ensures { result ≡ is_some self.now }
    {
        self.report.is_some()
    }

    /// The vote that the member reported, where it is counted and reported one.
    pub fn vote(&self) -> Option<&Vote>
        ensures { option_copied result ≡ reported self.now }
    {
        match &self.report {
            Some(Some(vote)) => Some(vote.as_ref()),
            _ => None,
        }
    }
}
