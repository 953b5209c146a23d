//! What a plant lacks, and what it does next about it.

ghost use Rattle.std.specs.Prelude.{is_some, ◌≡◌, ◌<◌, ◌≤◌, ◌+◌, ◌⊎◌, ℕ, true, false, [], Some, None, Ok, IfOk, OnOk, OnErr, IfSome, ◌==◌, min, if◌then◌else◌, length};
ghost use Rattle.gone_out.specs.Numbers.{has};
ghost use Rattle.std.specs.Option.{option_map};
ghost use Rattle.healing.specs.declared.case.LackStage.TheVariants.{Sought};
ghost use Rattle.healing.specs.Cases.{settled};
ghost use Rattle.healing.specs.Lists.{Rise};
ghost use Rattle.healing.specs.Healing.{AllRest, case_at, AreAwaited, AreDueIn, AreNotOut, AreRecalled, Becomes, CaseIsPut, is_held, IsOut, IsRecalled, IsRipeIn, IsTold, IsWanted, may_ask, NoneIsAwaited, NoneIsOut, NoneIsRipe, OnlyCasesChange, SeeksAll, StageIsPut};

use crate::batch::{batch_of, take_due};
use crate::case::{LackStage, LackedNumber, has_new_place, told};
use crate::due::Queue;
use crate::lists::{still_recalled, still_sought};
use crate::news::NumberNews;
use crate::repeats::{may_ask, repeated};
use crate::ripe::{case_of, first_ripe, put_case, put_stage, remove_case};
use crate::wanted::{Batch, Want};
use arrayvec::ArrayVec;
use ballots::{Member, Number};
use gone_out::Numbers;
use recalls::MOST_RECALLED;
use std::alloc::{AllocError, Global};
use std::collections::BTreeMap;
use std::marker::Model;

/// How many numbers are sought at a time.
const MOST_SOUGHT: usize = 8;

/// How many datagrams are taken in at most before something comes next although more wait.
const MOST_BEFORE_NEXT: u16 = 256;

/// What a plant knows of the numbers that did not go out there, and what went out. Of each number that is known it keeps a case of some
/// 40 bytes, and some 20 in a queue while it waits: of at most 999,999 numbers, most of which went out. Those take a bit each.
#[derive(Drop)]
pub struct Healing {
    /// The own member, which has a vote of a number whose row has one.
    own: Member,
    cases: BTreeMap<u32, LackedNumber>,
    queue: Queue,
    /// The numbers that were recalled, and maybe some that are so no longer.
    recalled: ArrayVec<u32, MOST_RECALLED>,
    /// The numbers that are sought, and maybe some that are so no longer.
    sought: ArrayVec<u32, MOST_SOUGHT>,
    gone: Numbers,
    /// How many datagrams were taken in since something came next, as far as they matter.
    taken: u16,
    /// When numbers were asked for once more last, in milliseconds.
    asked: Option<u64>,
}

impl Model for Healing {
    ghost use Rattle.healing.specs.Healing.{HealingValue, IsHealing};

    ghost Value = { HealingValue };

    ghost view = { λ h. record { own = h.own; cases = h.cases.entries; waiting = h.queue.waiting.keys; recalled = h.recalled.items; sought = h.sought.items; gone = h.gone; taken = h.taken; asked = h.asked } };

    ghost invariant = { λ h. IsHealing (record { own = h.own; cases = h.cases.entries; waiting = h.queue.waiting.keys; recalled = h.recalled.items; sought = h.sought.items; gone = h.gone; taken = h.taken; asked = h.asked }) };
}

impl Healing {
    /// Nothing is known yet but what went out before.
    pub fn new(alloc: Global, own: Member, gone: Numbers) -> Healing
        ensures none { (n : ℕ) → case_at result n ≡ None }
        ensures gone { result.gone ≡ gone }
        ensures own { result.own ≡ own }
        ensures asked { result.asked ≡ None }
    {
        Healing {
            own,
            cases: BTreeMap::new(alloc),
            queue: Queue::new(alloc),
            recalled: ArrayVec::new(),
            sought: ArrayVec::new(),
            gone,
            taken: 0,
            asked: None,
        }
    }

    /// Whether a number went out here.
    pub fn has_gone_out(&self, number: Number) -> bool
        ensures { result ≡ has self.now.gone number }
    {
        self.gone.contains(number)
    }

    /// Whether a number is known here that did not go out.
    pub fn knows(&self, number: Number) -> bool
        ensures { result ≡ is_some (case_at self.now number) }
    {
        case_of(&self.cases, number.get()).is_some()
    }

    /// How many numbers are known that did not go out.
    pub fn len(&self) -> usize
        ensures { result ≡ length self.now.cases }
    {
        self.cases.len()
    }

    /// Whether something may come next, now or later: it does not where no number waits, is recalled or is sought.
    pub fn is_busy(&self) -> bool
        ensures { result ≡ false → AllRest self.now.cases }
    {
        !self.queue.is_empty()
            || !still_recalled(&self.cases, &self.recalled).is_empty()
            || !still_sought(&self.cases, &self.sought).is_empty()
    }

    /// There is news of a number, at this moment in milliseconds. Of a number that went out there is none.
    pub fn tell(&mut self, number: Number, news: NumberNews, now: u64) -> Result<(), AllocError>
        ensures ok { OnOk result (IsTold self.old self.new number news now) }
        ensures err { OnErr result ((n : ℕ) → case_at self.new n ≡ case_at self.old n) }
        ensures rest { self.new ≡ record self.old { cases = self.new.cases; waiting = self.new.waiting } }
    {
        if self.gone.contains(number) {
            return Ok(());
        }
        let n = number.get();
        let old = case_of(&self.cases, n);
        let Some(case) = told(old, self.own, &news, now) else {
            return Ok(());
        };
        if has_new_place(old, case) {
            self.queue.put(case.due(), n)?;
        }
        put_case(&mut self.cases, n, case)?;
        if !case.stage.is_waiting() {
            self.queue.leave(n);
        }
        Ok(())
    }

    /// A number went out here: it is never asked for again.
    pub fn went_out(&mut self, number: Number)
        ensures { IsOut self.old self.new number }
    {
        self.gone.insert(number);
        remove_case(&mut self.cases, number.get());
        self.queue.leave(number.get());
    }

    /// A datagram was taken in, whatever it is about.
    pub fn count_datagram(&mut self)
        ensures { self.new ≡ record self.old { taken = min (self.old.taken + 1) 256 } }
    {
        self.taken = self.taken.saturating_add(1).min(MOST_BEFORE_NEXT);
    }

    /// The number that is sought next, if there is one: of those that were recalled the first that is ripe, while fewer than 8 are sought.
    fn seek(&mut self, now: u64) -> Option<Number>
        ensures ripe { IfSome result (IsRipeIn self.old.cases now) }
        ensures some { IfSome result (λ number. StageIsPut self.old.cases self.new.cases number Sought) }
        ensures none { result ≡ None → self.new.cases ≡ self.old.cases }
        ensures rests { result ≡ None → (8 ≤ length self.new.sought) ⊎ NoneIsRipe self.old.cases now }
        ensures rest { self.new ≡ record self.old { cases = self.new.cases; sought = self.new.sought } }
    {
        let sought = still_sought(&self.cases, &self.sought);
        self.sought = sought;
        if self.sought.is_full() {
            return None;
        }
        let number = first_ripe(&self.cases, self.recalled.as_slice(), now)?;
        self.sought.push(number.get());
        put_stage(&mut self.cases, number.get(), LackStage::Sought);
        Some(number)
    }

    /// A number that was recalled and that nobody has a vote of after 2 s is left.
    fn settle_one(&mut self, number: u32, now: u64)
        ensures cases { CaseIsPut self.old.cases self.new.cases number (option_map (settled now) (case_at self.old number)) }
        ensures rest { self.new ≡ record self.old { cases = self.new.cases } }
    {
        if let Some(case) = case_of(&self.cases, number)
            && case.is_over(now)
            && case.voters.is_empty()
        {
            put_stage(&mut self.cases, number, LackStage::Left);
        }
    }

    /// Of the numbers that were recalled those that nobody has a vote of after 2 s are left.
    fn settle(&mut self, now: u64)
        ensures cases { (n : ℕ) → case_at self.new n ≡ option_map (settled now) (case_at self.old n) }
        ensures rest { self.new ≡ record self.old { cases = self.new.cases; recalled = self.new.recalled } }
    {
        for place in 0..self.recalled.len() {
            let number = self.recalled[place];
            self.settle_one(number, now);
        }
        let recalled = still_recalled(&self.cases, &self.recalled);
        self.recalled = recalled;
    }

    /// A number of a batch is recalled at this moment.
    fn recall_one(&mut self, number: u32, now: u64)
        requires { length self.old.recalled < 64 }
        ensures { IsRecalled self.old self.new number now }
    {
        self.recalled.push(number);
        put_stage(&mut self.cases, number, LackStage::Recalled { at: now });
        self.queue.leave(number);
    }

    /// The numbers that are recalled next, if there are any: some that are due, as many as there is room for.
    fn recall(&mut self, now: u64) -> Result<Option<Batch>, AllocError>
        ensures due { IfOk result (λ r. IfSome r (λ batch. AreDueIn self.old.cases now batch)) }
        ensures fits { IfOk result (λ r. IfSome r (λ batch. Rise 0 batch × (1 ≤ length batch) × (length batch ≤ 64))) }
        ensures cases { IfOk result (λ r. IfSome r (λ batch. AreRecalled batch now self.old.cases self.new.cases)) }
        ensures none { IfOk result (λ r. r ≡ None → self.new.cases ≡ self.old.cases) }
        ensures rest { self.new ≡ record self.old { cases = self.new.cases; waiting = self.new.waiting; recalled = self.new.recalled } }
    {
        let room = MOST_RECALLED - self.recalled.len();
        let mut few = take_due(&self.cases, &mut self.queue, room, now)?;
        few.as_mut_slice().sort_unstable();
        let Some(batch) = batch_of(&self.cases, &few, now) else {
            return Ok(None);
        };
        for number in batch.numbers() {
            self.recall_one(*number, now);
        }
        Ok(Some(batch))
    }

    /// What comes next at this moment in milliseconds, if anything does: nothing while datagrams wait, unless 256 were taken in since
    /// something came next. A search comes before a recall.
    ///
    /// # Errors
    ///
    /// Out of memory. What is known of numbers is then as good as before, but some may be recalled late, or not at all.
    pub fn next(&mut self, now: u64, waits: bool) -> Result<Option<Want>, AllocError>
        ensures wanted { IfOk result (λ w. IfSome w (IsWanted self.old now)) }
        // A number that went out is neither recalled nor sought.
        ensures out { IfOk result (λ w. IfSome w (NoneIsOut self.old.gone)) }
        ensures becomes { is_held self.old waits ≡ false → IfOk result (λ w. Becomes self.old self.new now w) }
        ensures seeks { is_held self.old waits ≡ false → IfOk result (λ w. SeeksAll self.old self.new now w) }
        ensures held { is_held self.old waits ≡ true → (result ≡ Ok None) × (self.new ≡ self.old) }
        ensures rest { OnlyCasesChange self.old self.new }
    {
        if waits && self.taken < MOST_BEFORE_NEXT {
            return Ok(None);
        }
        if let Some(number) = self.seek(now) {
            self.taken = 0;
            return Ok(Some(Want::Seek { number }));
        }
        self.settle(now);
        let Some(numbers) = self.recall(now)? else {
            return Ok(None);
        };
        self.taken = 0;
        Ok(Some(Want::Recall { numbers }))
    }

    /// Of the numbers that are recalled all that are to be asked for once more at this moment in milliseconds: they were recalled 300 ms
    /// before or earlier, 2 s are not over, and nothing else became of them. `None` where there are none, or where some were asked for
    /// less than 300 ms before. Each keeps the moment of its recall.
    pub fn again(&mut self, now: u64) -> Option<Batch>
        ensures awaited { IfSome result (AreAwaited self.old.cases now) }
        ensures out { IfSome result (AreNotOut self.old.gone) }
        ensures none { result ≡ None → may_ask self.old.asked now ≡ true → NoneIsAwaited self.old.cases now }
        ensures early { may_ask self.old.asked now ≡ false → result ≡ None }
        ensures moment { IfSome result (λ batch. self.new ≡ record self.old { asked = Some now }) }
        ensures same { result ≡ None → self.new ≡ self.old }
    {
        if !may_ask(self.asked, now) {
            return None;
        }
        let batch = repeated(&self.cases, &self.recalled, now)?;
        self.asked = Some(now);
        Some(batch)
    }
}
