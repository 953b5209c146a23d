//! What one member is asked for, and what it told.

ghost use Rattle.std.specs.Prelude.{◌≡◌, Some};
ghost use Rattle.roll_call.specs.Topics.{the_counts};
ghost use Rattle.roll_call.specs.Tellers.{asked_for, called, is_anew, is_counts_due, is_pending, is_waiting, pending_after, page_due, silent, told_counts, told_page, tries_after, tries_of};

use crate::ask::is_same;
use crate::heard::HeardCounts;
use crate::look::RollLook;
use rolls::{Counts, Page};
use std::marker::Model;

/// How long an answer is waited for, in milliseconds.
const PATIENCE: u64 = 1500;

/// How often in a row a member is asked without an answer.
const MOST_TRIES: u8 = 6;

/// What a member was asked for last and did not tell yet.
#[derive(Clone, Copy)]
pub(crate) struct PendingAsk {
    /// The station's number of the ask.
    pub asked: u32,
    /// The page, or none where its counts were asked for.
    pub page: Option<Page>,
    /// When it was asked, in milliseconds.
    pub since: u64,
    /// How often in a row it was asked without an answer.
    pub tries: u8,
}

/// A member that is asked for its counts and its pages.
#[derive(Drop)]
pub(crate) struct Teller {
    heard: HeardCounts,
    pending: Option<PendingAsk>,
    /// Whether its counts are to be asked for.
    is_due: bool,
    /// How many packets had come when they were asked for last.
    seen: u64,
}

impl Model for Teller {
    ghost use Rattle.roll_call.specs.Tellers.{TellerValue};

    ghost Value = { TellerValue };

    ghost view = { λ t. record { heard = t.heard; pending = t.pending; is_due = t.is_due; seen = t.seen } };
}

impl Teller {
    /// At the start its counts are to be asked for.
    pub(crate) fn new() -> Teller
        ensures { result ≡ silent }
    {
        Teller {
            heard: HeardCounts::new(),
            pending: None,
            is_due: true,
            seen: 0,
        }
    }

    /// How often in a row it was asked without an answer.
    fn tries(&self) -> u8
        ensures { result ≡ tries_of self.now.pending }
    {
        match &self.pending {
            Some(pending) => pending.tries,
            None => 0,
        }
    }

    /// Whether an answer of it is waited for.
    fn is_waiting(&self, now: u64) -> bool
        ensures { result ≡ is_waiting now self.now.pending }
    {
        match &self.pending {
            Some(pending) => now.saturating_sub(pending.since) < PATIENCE,
            None => false,
        }
    }

    /// Whether what it told may be old, now that it is quiet.
    fn is_anew(&self, look: &RollLook) -> bool
        ensures { result ≡ is_anew look.now self.now }
    {
        look.is_quiet && self.seen != look.news
    }

    /// Whether its counts are asked for now.
    pub(crate) fn is_counts_due(&self, look: &RollLook) -> bool
        ensures { result ≡ is_counts_due look.now self.now }
    {
        !self.is_waiting(look.moment)
            && (self.is_anew(look) || (self.is_due && self.tries() < MOST_TRIES))
    }

    /// The page that it is asked for now where its counts are not.
    pub(crate) fn page_due(&self, now: u64) -> Option<Page>
        ensures { result ≡ page_due now self.now }
    {
        if self.is_waiting(now) || (self.is_due || self.tries() >= MOST_TRIES) {
            None
        } else {
            self.heard.lowest()
        }
    }

    /// How often in a row it was asked without an answer after it is asked now.
    fn tries_after(&self, look: &RollLook) -> u8
        ensures { result ≡ tries_after look.now self.now }
    {
        if self.is_anew(look) {
            1
        } else {
            self.tries().saturating_add(1)
        }
    }

    /// Its counts are asked for.
    pub(crate) fn ask_counts(&mut self, look: &RollLook, asked: u32)
        ensures { self.new ≡ asked_for look.now asked the_counts self.old }
    {
        self.pending = Some(PendingAsk {
            asked,
            page: None,
            since: look.moment,
            tries: self.tries_after(look),
        });
        self.is_due = true;
        self.seen = look.news;
    }

    /// A page of it is asked for.
    pub(crate) fn ask_page(&mut self, look: &RollLook, asked: u32, page: Page)
        ensures { self.new ≡ asked_for look.now asked (Some page) self.old }
    {
        self.pending = Some(PendingAsk {
            asked,
            page: Some(page),
            since: look.moment,
            tries: self.tries_after(look),
        });
    }

    /// Its turn has come: its counts are to be asked for.
    pub(crate) fn call(&mut self)
        ensures { self.new ≡ called self.old }
    {
        self.is_due = true;
        if let Some(pending) = &mut self.pending {
            pending.tries = 0;
        }
    }

    /// Whether this is what it was asked for last.
    pub(crate) fn is_pending(&self, asked: u32, page: &Option<Page>) -> bool
        ensures { result ≡ is_pending asked page.now self.now.pending }
    {
        match &self.pending {
            Some(pending) => pending.asked == asked && is_same(&pending.page, page),
            None => false,
        }
    }

    /// It told its counts. Whether they were asked for.
    pub(crate) fn tell_counts(&mut self, asked: u32, counts: &Counts) -> bool
        ensures pending { result ≡ is_pending asked the_counts self.old.pending }
        ensures told { self.new ≡ told_counts asked counts.now self.old }
    {
        if !self.is_pending(asked, &None) {
            return false;
        }
        self.heard.counts(counts);
        self.pending = None;
        self.is_due = false;
        true
    }

    /// It told a page, on which so many numbers have a vote. Whether it was asked for.
    pub(crate) fn tell_page(&mut self, asked: u32, page: Page, count: u16) -> bool
        ensures pending { result ≡ is_pending asked (Some page) self.old.pending }
        ensures told { self.new ≡ told_page asked page count self.old }
    {
        if !self.is_pending(asked, &Some(page)) {
            return false;
        }
        self.heard.page(page, count);
        self.pending = None;
        true
    }

    /// Whether it told its counts since the start, and each page of them that has votes.
    pub(crate) fn is_whole(&self) -> bool
        ensures { result ≡ self.now.heard.is_whole }
    {
        self.heard.is_whole()
    }
}
