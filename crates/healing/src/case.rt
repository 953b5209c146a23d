//! A number that is known here and did not go out: what was heard of it, and what is done about it.

ghost use Rattle.std.specs.Prelude.{◌≡◌};
ghost use Rattle.healing.specs.Cases.{fresh, case_after, known_after, voters_after, before_after, moved, again, sooner, is_open, is_sought, is_recalled, is_waiting, has_new_place, sought_in, recalled_in, awaited_in, lacks, is_due, is_over, is_ripe, is_awaited, due_at, with_stage};

use crate::news::NumberNews;
use crate::voters::Voters;
use ballots::Member;

/// How long the votes that were recalled are waited for, in milliseconds.
const WAITED_FOR: u64 = 2_000;

/// How long after it was recalled a number is asked for once more, in milliseconds.
const ASKED_AFTER: u64 = 300;

/// What is done about a number.
#[derive(Clone, Copy, PartialEq, Eq)]
pub enum LackStage {
    /// It is recalled once it is lacked.
    Waiting,
    /// It was recalled at this moment, in milliseconds.
    Recalled { at: u64 },
    /// It is sought.
    Sought,
    /// A ballot of it is open here, for a file among the offers.
    Open,
    /// Nobody told a vote, or a ballot found nothing: it is left until a member has a vote that was not known to have one as the last
    /// ballot was begun.
    Left,
}

/// A number that is known here and did not go out. Moments are in milliseconds; the last that there is stands for all after it.
#[derive(Clone, Copy, PartialEq, Eq)]
pub struct LackedNumber {
    /// From which moment on it is known for long enough: 5 s after a row of it was saved or a ballot of it was opened, and at once where a
    /// page told of it.
    pub known: u64,
    /// From which moment on nothing of it came for long enough: 2 s after something came last.
    pub quiet: u64,
    /// The members that have a vote of it: others that told so, and the own one where its row has one.
    pub voters: Voters,
    /// Those that were known to have one as the last ballot or search of it was begun here.
    pub before: Voters,
    pub stage: LackStage,
}

impl LackStage {
    /// Whether a ballot of the number is open here.
    fn is_open(self) -> bool
        ensures { result ≡ is_open self }
    {
        match self {
            LackStage::Sought | LackStage::Open => true,
            LackStage::Waiting | LackStage::Recalled { .. } | LackStage::Left => false,
        }
    }

    /// Whether the number is sought.
    pub(crate) fn is_sought(self) -> bool
        ensures { result ≡ is_sought self }
    {
        match self {
            LackStage::Sought => true,
            LackStage::Waiting | LackStage::Recalled { .. } | LackStage::Open | LackStage::Left =>
                false,
        }
    }

    /// Whether the number is recalled.
    pub(crate) fn is_recalled(self) -> bool
        ensures { result ≡ is_recalled self }
    {
        match self {
            LackStage::Recalled { .. } => true,
            LackStage::Waiting | LackStage::Sought | LackStage::Open | LackStage::Left => false,
        }
    }

    /// Whether the number waits.
    pub(crate) fn is_waiting(self) -> bool
        ensures { result ≡ is_waiting self }
    {
        match self {
            LackStage::Waiting => true,
            LackStage::Recalled { .. } | LackStage::Sought | LackStage::Open | LackStage::Left =>
                false,
        }
    }

    /// The stage after news, as far as they begin or end a ballot.
    fn moved(self, news: &NumberNews) -> LackStage
        ensures { result ≡ moved news.now self }
    {
        match (news, self) {
            (NumberNews::Opened, _) => LackStage::Open,
            (NumberNews::Closed, LackStage::Sought | LackStage::Open) => LackStage::Waiting,
            (NumberNews::Nothing, LackStage::Sought | LackStage::Open) => LackStage::Left,
            _ => self,
        }
    }

    /// The stage where all members that have a vote were known to have one as the last ballot was begun, or not all: a number that is left
    /// waits again then.
    fn again(self, knows_all: bool) -> LackStage
        ensures { result ≡ again knows_all self }
    {
        match self {
            LackStage::Left if !knows_all => LackStage::Waiting,
            _ => self,
        }
    }
}

/// The members that have a vote, with another one, if there is one.
fn voters_after(voters: Voters, voter: Option<Member>) -> Voters
    ensures { result ≡ voters_after voter voters }
{
    match voter {
        Some(member) => voters.with(member),
        None => voters,
    }
}

/// The sooner of two moments, if there is another one.
fn sooner(moment: Option<u64>, known: u64) -> u64
    ensures { result ≡ sooner moment known }
{
    match moment {
        Some(moment) => moment.min(known),
        None => known,
    }
}

impl LackedNumber {
    /// A number that was not known, after news of it: it is known from a row that is saved here on, from a ballot of its own, or from a
    /// page that tells of it.
    fn fresh(own: Member, news: &NumberNews, now: u64) -> Option<LackedNumber>
        ensures { result ≡ fresh own news.now now }
    {
        let known = news.known_from(now)?;
        Some(LackedNumber {
            known,
            quiet: news.quiet_from(now).unwrap_or(now),
            voters: voters_after(Voters::new(), news.voter(own)),
            before: Voters::new(),
            stage: LackStage::Waiting.moved(news),
        })
    }

    /// Those that were known to have a vote as the last ballot was begun, after news.
    fn before_after(self, news: &NumberNews) -> Voters
        ensures { result ≡ before_after news.now self.voters self.before }
    {
        match news {
            NumberNews::Opened => self.voters,
            _ => self.before,
        }
    }

    /// The case after news.
    fn after(self, own: Member, news: &NumberNews, now: u64) -> LackedNumber
        ensures { result ≡ case_after own news.now now self }
    {
        let voters = voters_after(self.voters, news.voter(own));
        LackedNumber {
            known: sooner(news.known_from(now), self.known),
            quiet: news.quiet_from(now).unwrap_or(self.quiet),
            voters,
            before: self.before_after(news),
            stage: self.stage.moved(news).again(voters.are_within(self.before)),
        }
    }

    /// The same number in another stage.
    pub(crate) fn with_stage(self, stage: LackStage) -> LackedNumber
        ensures { result ≡ with_stage stage self }
    {
        LackedNumber {
            known: self.known,
            quiet: self.quiet,
            voters: self.voters,
            before: if stage.is_open() {
                self.voters
            } else {
                self.before
            },
            stage,
        }
    }

    /// Whether the number is lacked: no ballot of it is open here, it is known for long enough, and nothing of it came for long enough.
    pub(crate) fn is_lacked(self, now: u64) -> bool
        ensures { result ≡ lacks self now }
    {
        !self.stage.is_open() && self.known <= now && self.quiet <= now
    }

    /// Whether it is time to recall the number.
    pub(crate) fn is_due(self, now: u64) -> bool
        ensures { result ≡ is_due self now }
    {
        self.stage.is_waiting() && self.is_lacked(now)
    }

    /// Whether 2 s went by since the number was recalled.
    pub(crate) fn is_over(self, now: u64) -> bool
        ensures { result ≡ is_over self now }
    {
        match self.stage {
            LackStage::Recalled { at } => now.saturating_sub(at) >= WAITED_FOR,
            _ => false,
        }
    }

    /// Whether the number is asked for once more: it was recalled 300 ms before or earlier, and 2 s are not over.
    pub(crate) fn is_awaited(self, now: u64) -> bool
        ensures { result ≡ is_awaited self now }
    {
        match self.stage {
            LackStage::Recalled { at } => now.saturating_sub(at) >= ASKED_AFTER
                && !self.is_over(now),
            _ => false,
        }
    }

    /// Whether it is time to seek the number: it is lacked, it was recalled 2 s before, and a member has a vote of it.
    pub(crate) fn is_ripe(self, now: u64) -> bool
        ensures { result ≡ is_ripe self now }
    {
        !self.voters.is_empty() && self.is_over(now) && self.is_lacked(now)
    }

    /// From when on it may be time to recall the number, if nothing comes of it until then.
    pub(crate) fn due(self) -> u64
        ensures { result ≡ due_at self }
    {
        self.known.max(self.quiet)
    }
}

/// What becomes of a number after news of it, known or not.
pub(crate) fn told(
    case: Option<LackedNumber>,
    own: Member,
    news: &NumberNews,
    now: u64,
) -> Option<LackedNumber>
    ensures { result ≡ known_after own news.now now case }
{
    match case {
        Some(case) => Some(case.after(own, news, now)),
        None => LackedNumber::fresh(own, news, now),
    }
}

/// Whether a number waits that did not wait, or that is due earlier than it was.
pub(crate) fn has_new_place(old: Option<LackedNumber>, case: LackedNumber) -> bool
    ensures { result ≡ has_new_place old case }
{
    case.stage.is_waiting()
        && match old {
            Some(old) => !old.stage.is_waiting() || case.due() < old.due(),
            None => true,
        }
}

/// Whether a number has a case in which it is sought.
pub(crate) fn is_sought(case: Option<LackedNumber>) -> bool
    ensures { result ≡ sought_in case }
{
    match case {
        Some(case) => case.stage.is_sought(),
        None => false,
    }
}

/// Whether a number has a case in which it is recalled.
pub(crate) fn is_recalled(case: Option<LackedNumber>) -> bool
    ensures { result ≡ recalled_in case }
{
    match case {
        Some(case) => case.stage.is_recalled(),
        None => false,
    }
}

/// Whether a number has a case in which it is asked for once more.
pub(crate) fn is_awaited(case: Option<LackedNumber>, now: u64) -> bool
    ensures { result ≡ awaited_in case now }
{
    match case {
        Some(case) => case.is_awaited(now),
        None => false,
    }
}
