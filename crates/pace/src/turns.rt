//! Which work comes next in a station that stays up.

ghost use Rattle.std.specs.Prelude.{◌≡◌, ◌≤◌, ◌+◌, ◌&&◌, not, None, false, min, nat_lt};
ghost use Rattle.pace.specs.Order.{after_work, first_counts, has_deed, has_rested, is_allowed, may_ask, next_work, quiet_work};

use std::marker::Model;

/// The pause between the end of a look at the folder and the next look, in milliseconds.
pub const LOOK: u64 = 100;

/// How many datagrams are taken in at most before what is due is seen to, though more wait.
const MOST_BEFORE_DUE: u8 = 64;

/// How many datagrams are taken in at most before a deed is done with a file, though more wait.
const MOST_BEFORE_DEED: u8 = 16;

/// How many files are under way at most.
pub(crate) const MOST_UNDER_WAY: usize = 16;

/// What a station does next.
#[derive(Clone, Copy, PartialEq, Eq)]
pub enum Work {
    /// A look at the folder.
    Look,
    /// It takes in one datagram from memory.
    TakeIn,
    /// It sees to what is due: one number, if there is one.
    Due,
    /// One file is read, moved or asked for, the latter only where it may ask.
    Deed { may_ask: bool },
    /// Nothing is to be done: it waits for a datagram, 50 ms at most, and takes in the one that comes.
    Wait,
}

/// What a station did.
#[derive(Clone, Copy, PartialEq, Eq)]
pub enum Done {
    /// It looked at the folder.
    Looked,
    /// It took a datagram in, or passed over one; it may have waited for it.
    TookIn,
    /// It saw to one number that was due.
    SawOne,
    /// No number was due.
    SawNothing,
    /// It read, moved or asked for a file.
    DidDeed,
    /// It waited, and no datagram came.
    Waited,
}

/// What there is to do with files.
#[derive(Clone, Copy, PartialEq, Eq)]
pub enum Deeds {
    /// Nothing.
    Nothing,
    /// Files are to be asked for, and nothing else.
    Asks,
    /// A file is to be read or moved, and others may be to be asked for.
    Others,
}

/// What a station finds before its next work.
#[derive(Clone, Copy)]
pub struct Sight {
    /// The moment, in milliseconds.
    pub now: u64,
    /// Whether a datagram waits in memory.
    pub waits: bool,
    /// What there is to do with files.
    pub deeds: Deeds,
    /// How many files are under way.
    pub under_way: usize,
    /// Whether a member is behind.
    pub is_behind: bool,
}

/// What the last sight of what is due showed, where nothing was taken in, done with a file or waited for since.
#[derive(Clone, Copy, PartialEq, Eq)]
pub(crate) enum DueSight {
    /// Something was, so a number may be due.
    Unseen,
    /// One number was due, so another may be.
    One,
    /// None was.
    Nothing,
}

/// What is counted of a station's work for the choice of the next.
#[derive(Drop)]
pub struct Turns {
    /// When the last look ended, in milliseconds.
    looked: Option<u64>,
    /// Whether that look was the last work.
    just_looked: bool,
    /// How many datagrams were taken in since what is due was seen to.
    since_due: u8,
    /// How many datagrams were taken in since a deed was done with a file, as far as they matter.
    since_deed: u8,
    seen: DueSight,
}

impl Model for Turns {
    ghost use Rattle.std.specs.Prelude.{◌≤◌};
    ghost use Rattle.pace.specs.Order.{Counts};

    ghost Value = { Counts };

    ghost view = { λ t. record { looked = t.looked; just_looked = t.just_looked; since_due = t.since_due; since_deed = t.since_deed; seen = t.seen } };

    ghost invariant = { λ t. (t.since_due ≤ 64) × (t.since_deed ≤ 16) };
}

impl Sight {
    /// Whether a file may be asked for: few are under way, and no member is behind.
    fn may_ask(self) -> bool
        ensures { result ≡ may_ask self }
    {
        self.under_way < MOST_UNDER_WAY && !self.is_behind
    }

    /// Whether there is a deed to do with a file, where files may be asked for or may not.
    fn has_deed(self) -> bool
        ensures { result ≡ has_deed self }
    {
        match self.deeds {
            Deeds::Nothing => false,
            Deeds::Asks => self.may_ask(),
            Deeds::Others => true,
        }
    }
}

/// Whether the pause since the last look has gone by.
fn has_rested(looked: Option<u64>, now: u64) -> bool
    ensures { result ≡ has_rested looked now }
{
    match looked {
        None => true,
        Some(looked) => now.saturating_sub(looked) >= LOOK,
    }
}

/// One datagram more, as far as the count matters.
fn one_more(count: u8, most: u8) -> u8
    ensures { result ≡ min (count + 1) most }
{
    count.saturating_add(1).min(most)
}

/// The work where no datagram waits: what is due and deeds take turns, and it is waited where neither is left.
fn quiet_work(seen: DueSight, has_deed: bool, may_ask: bool) -> Work
    ensures { result ≡ quiet_work seen has_deed may_ask }
{
    match seen {
        DueSight::Unseen => Work::Due,
        DueSight::One => if has_deed {
            Work::Deed { may_ask }
        } else {
            Work::Due
        },
        DueSight::Nothing => if has_deed {
            Work::Deed { may_ask }
        } else {
            Work::Wait
        },
    }
}

impl Turns {
    /// Nothing was done yet.
    pub fn new() -> Turns
        ensures { result ≡ first_counts }
    {
        Turns {
            looked: None,
            just_looked: false,
            since_due: 0,
            since_deed: 0,
            seen: DueSight::Unseen,
        }
    }

    /// The work that comes next. A look comes where it is time for one, but never two one after the other, so that slow looks leave room
    /// for other work. Datagrams go before what is due and before deeds, up to so many.
    pub fn next(&self, sight: Sight) -> Work
        ensures { result ≡ next_work self.now sight }
    {
        let has_deed = sight.has_deed();
        if !self.just_looked && has_rested(self.looked, sight.now) {
            Work::Look
        } else if self.since_due >= MOST_BEFORE_DUE {
            Work::Due
        } else if self.since_deed >= MOST_BEFORE_DEED && has_deed {
            Work::Deed {
                may_ask: sight.may_ask(),
            }
        } else if sight.waits {
            Work::TakeIn
        } else {
            quiet_work(self.seen, has_deed, sight.may_ask())
        }
    }

    /// This was done, and ended at this moment in milliseconds.
    pub fn after(&mut self, done: Done, now: u64)
        ensures { self.new ≡ after_work self.old done now }
    {
        self.just_looked = false;
        match done {
            Done::Looked => {
                self.looked = Some(now);
                self.just_looked = true;
            }
            Done::TookIn => {
                self.since_due = one_more(self.since_due, MOST_BEFORE_DUE);
                self.since_deed = one_more(self.since_deed, MOST_BEFORE_DEED);
                self.seen = DueSight::Unseen;
            }
            Done::SawOne => {
                self.since_due = 0;
                self.seen = DueSight::One;
            }
            Done::SawNothing => {
                self.since_due = 0;
                self.seen = DueSight::Nothing;
            }
            Done::DidDeed => {
                self.since_deed = 0;
                self.seen = DueSight::Unseen;
            }
            Done::Waited => self.seen = DueSight::Unseen,
        }
    }
}
