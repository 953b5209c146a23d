//! What a plant asked for since it lacked nothing last, as an operator is told of it.

ghost use Rattle.std.specs.Prelude.{◌≡◌, ◌≤◌, ◌<◌, ◌++◌, ◌∷◌, ◌||◌, ℕ, [], None, IfOk, IfSome, length};
ghost use Rattle.gone_out.specs.Files.{IsNumber};
ghost use Rattle.gone_out.specs.Numbers.{has, IsEmpty};
ghost use Rattle.healing.specs.Lists.{is_among};
ghost use Rattle.catch_up.specs.Values.{AreNumbers};
ghost use Rattle.catch_up.specs.Waves.{AreAsked, AreAskedIn, IsHandedOut, IsNothingAsked, IsWaveOver, all_kept, kept, missed_in, new_ones, out_in, out_of, wave_of, has_asked, has_asked_in};

use crate::values::{Values, copied};
use arrayvec::ArrayVec;
use ballots::Number;
use gone_out::Numbers;
use healing::Batch;
use std::alloc::{AllocError, Global};

/// What became of the numbers that were asked for, until nothing was lacked any more.
#[derive(Clone, Copy, PartialEq, Eq)]
pub struct Wave {
    /// How many numbers were asked for.
    pub asked: u32,
    /// How many of them went out.
    pub released: u32,
    /// How many of them did not: nobody told a vote of them, a search found nothing, or a ballot of them is open here.
    pub nothing: u32,
}

/// How many others a station asks for their votes, and how many of them told them.
#[derive(Clone, Copy, PartialEq, Eq)]
pub struct ToldBy {
    /// How many other members the circuit has.
    pub others: u8,
    /// How many of them told how many numbers of each page have a vote there, and each page that has one.
    pub told: u8,
}

/// The numbers that were asked for since nothing was lacked last. They take 125,000 bytes.
#[derive(Drop)]
pub(crate) struct AskedNumbers {
    numbers: Numbers,
    /// How many of them went out since.
    released: u32,
    /// Those that were not handed out yet to be told.
    missed: Values,
}

/// Adds a number, unless it is among these.
fn add_new(rest: &mut Values, each: u32, numbers: &Numbers)
    requires { (length rest.old.items < 64) × IsNumber each }
    ensures { rest.new.items ≡ rest.old.items ++ new_ones numbers.now (each ∷ []) }
{
    let Some(number) = Number::new(each) else {
        unreachable!();
    };
    if !numbers.contains(number) {
        rest.push(each);
    }
}

/// Of these numbers those that are not in a set.
fn new_of(numbers: &[u32], set: &Numbers) -> Values
    requires few { length numbers.now ≤ 64 }
    requires numbers { AreNumbers numbers.now }
    ensures { result.items ≡ new_ones set.now numbers.now }
{
    let mut rest = ArrayVec::new();
    for each in numbers {
        add_new(&mut rest, *each, set);
    }
    rest
}

/// A number waits behind the others, where fewer than 64 wait.
fn keep(numbers: &mut Values, each: u32)
    ensures { numbers.new.items ≡ kept numbers.old.items each }
{
    if !numbers.is_full() {
        numbers.push(each);
    }
}

/// Numbers wait behind the others, as far as 64 wait.
fn keep_all(numbers: &mut Values, more: &[u32])
    ensures { numbers.new.items ≡ all_kept more.now numbers.old.items }
{
    for each in more {
        keep(numbers, *each);
    }
}

impl AskedNumbers {
    /// Nothing was asked for yet.
    pub(crate) fn new(alloc: Global) -> Result<AskedNumbers, AllocError>
        ensures { IfOk result IsNothingAsked }
    {
        Ok(AskedNumbers {
            numbers: Numbers::new(alloc)?,
            released: 0,
            missed: ArrayVec::new(),
        })
    }

    /// These are asked for.
    fn insert(&mut self, numbers: &[u32])
        requires { AreNumbers numbers.now }
        ensures numbers { (n : ℕ) → has self.new.numbers n ≡ (has self.old.numbers n || is_among numbers.now n) }
        ensures rest { self.new ≡ record self.old { numbers = self.new.numbers } }
    {
        for each in numbers {
            let Some(number) = Number::new(*each) else {
                unreachable!();
            };
            self.numbers.insert(number);
        }
    }

    /// A batch is recalled. Those of it that were not asked for yet wait to be handed out.
    pub(crate) fn ask(&mut self, batch: &[u32])
        requires few { length batch.now ≤ 64 }
        requires numbers { AreNumbers batch.now }
        ensures { AreAsked self.old self.new batch.now }
    {
        let new = new_of(batch, &self.numbers);
        keep_all(&mut self.missed, new.as_slice());
        self.insert(batch);
    }

    /// A number went out that had not gone out before.
    pub(crate) fn leave(&mut self, number: Number)
        ensures { self.new ≡ out_of number self.old }
    {
        if self.numbers.contains(number) {
            self.released = self.released.saturating_add(1);
        }
    }

    /// Those that were not handed out yet.
    pub(crate) fn take_missed(&mut self) -> Values
        ensures missed { result.items ≡ self.old.missed.items }
        ensures left { self.new.missed.items ≡ [] }
        ensures rest { self.new ≡ record self.old { missed = self.new.missed } }
    {
        let missed = copied(self.missed.as_slice());
        self.missed = ArrayVec::new();
        missed
    }

    /// Whether anything was asked for.
    fn has_asked(&self) -> bool
        ensures { result ≡ has_asked self.now }
    {
        !self.numbers.is_empty()
    }

    /// What became of them.
    fn wave(&self) -> Wave
        ensures { result ≡ wave_of self.now }
    {
        let asked = self.numbers.len();
        Wave {
            asked,
            released: self.released,
            nothing: asked.saturating_sub(self.released),
        }
    }

    /// What became of them, where some were asked for; nothing is asked for any more then. `None` where none was, or memory is refused.
    pub(crate) fn finish(&mut self, alloc: Global) -> Option<Wave>
        ensures some { IfSome result (λ w. w ≡ wave_of self.old) }
        ensures anew { IfSome result (λ w. IsEmpty self.new.numbers × (self.new.released ≡ 0)) }
        ensures asked { IfSome result (λ w. 1 ≤ w.asked) }
        ensures none { result ≡ None → self.new ≡ self.old }
        ensures missed { self.new.missed.items ≡ self.old.missed.items }
    {
        if self.numbers.is_empty() {
            return None;
        }
        let Ok(numbers) = Numbers::new(alloc) else {
            return None;
        };
        let wave = self.wave();
        self.numbers = numbers;
        self.released = 0;
        Some(wave)
    }
}

/// A batch is recalled.
pub(crate) fn ask_wave(wave: &mut Option<AskedNumbers>, batch: &Batch)
    ensures { AreAskedIn wave.old wave.new batch.now }
{
    if let Some(asking) = wave {
        asking.ask(batch.numbers());
    }
}

/// A number went out, which had gone out before or not.
pub(crate) fn leave_wave(wave: &mut Option<AskedNumbers>, number: Number, was_out: bool)
    ensures { wave.new ≡ out_in was_out number wave.old }
{
    if !was_out && let Some(asking) = wave {
        asking.leave(number);
    }
}

/// Those that were not handed out yet.
pub(crate) fn missed_of(wave: &mut Option<AskedNumbers>) -> Values
    ensures missed { result.items ≡ missed_in wave.old }
    ensures left { IsHandedOut wave.old wave.new }
{
    match wave {
        Some(asking) => asking.take_missed(),
        None => ArrayVec::new(),
    }
}

/// What became of those that were asked for, if any were.
pub(crate) fn finished(wave: &mut Option<AskedNumbers>, alloc: Global) -> Option<Wave>
    ensures over { IfSome result (IsWaveOver wave.old wave.new) }
    ensures none { result ≡ None → wave.new ≡ wave.old }
{
    match wave {
        Some(asking) => asking.finish(alloc),
        None => None,
    }
}

/// Whether anything was asked for.
pub(crate) fn has_asked(wave: &Option<AskedNumbers>) -> bool
    ensures { result ≡ has_asked_in wave.now }
{
    match wave {
        Some(asking) => asking.has_asked(),
        None => false,
    }
}
