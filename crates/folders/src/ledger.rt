//! What went out, as a station has it beside its file.

ghost use Rattle.std.specs.Prelude.{◌≡◌, ◌↔◌, ◌⊎◌, [], ℕ, List, IsTrue, IfOk};
ghost use Rattle.gone_out.specs.declared.origin.Origin.{Origin as OriginValue};
ghost use Rattle.gone_out.specs.Files.{IsNumber};
ghost use Rattle.gone_out.specs.Numbers.{has};
ghost use Rattle.folders.specs.GoneOut.{IsFileOf, IsFileBut, MakesGood};
ghost use Rattle.folders.specs.Noting.{AreNoted, IsNoted};

use crate::change::{Change, Records};
use crate::released::{is_station, members, new_file, records_of};
use ballots::Number;
use gone_out::{HEAD_LEN, Numbers, Origin, laws, whole_len};
use std::alloc::{AllocError, Global};

/// The numbers that went out, and those of them that wait for their records.
#[derive(Drop)]
pub struct Ledger {
    numbers: Numbers,
    /// In the order in which they went out.
    waiting: Vec<Number>,
}

impl Ledger {
    /// That of a file in which these numbers have records.
    pub fn new(alloc: Global, numbers: Numbers) -> Ledger
        ensures numbers { result.numbers ≡ numbers }
        ensures waiting { result.waiting.items ≡ [] }
    {
        Ledger {
            numbers,
            waiting: Vec::new(alloc),
        }
    }

    /// A number went out. Where it is new, it waits for its record.
    fn note_one(&mut self, number: Number) -> Result<(), AllocError>
        ensures { IsNoted self.old self.new number result }
    {
        if !self.numbers.contains(number) {
            self.waiting.push(number)?;
            self.numbers.insert(number);
        }
        Ok(())
    }

    /// These numbers went out. Those that are new wait for their records, and each is remembered once. Where there is no memory for all of
    /// them, the first are noted.
    pub fn note(&mut self, numbers: &[Number]) -> Result<(), AllocError>
        ensures { AreNoted self.old self.new numbers.now result }
    {
        for number in numbers {
            self.note_one(*number)?;
        }
        Ok(())
    }

    /// What is to be done with the file, which has this length, or 0 where there is none: it is written anew where it is too short for a
    /// head, and else gets the records that wait.
    pub fn change(&self, alloc: Global, own: &Origin, len: u64) -> Result<Change, AllocError>
        ensures { IfOk result (MakesGood own.now self.now.numbers self.now.waiting.items len) }
    {
        laws::adds_one();
        is_station(own);
        if len < HEAD_LEN as u64 {
            return Ok(Change::Anew(new_file(alloc, own, &self.numbers)?));
        }
        if self.waiting.is_empty() {
            return Ok(Change::Stays);
        }
        Ok(Change::Adds(Records {
            place: whole_len(len),
            bytes: records_of(alloc, own, &self.waiting)?,
        }))
    }

    /// The change was made: none waits.
    pub fn made(&mut self)
        ensures numbers { self.new.numbers ≡ self.old.numbers }
        ensures waiting { self.new.waiting.items ≡ [] }
    {
        self.waiting.clear();
    }

    /// The same numbers over another file, in which these have records: the others wait for theirs.
    pub fn over(&self, alloc: Global, numbers: Numbers) -> Result<Ledger, AllocError>
        ensures known { IfOk result (λ l. (n : ℕ) → IsNumber n → IsTrue (has l.numbers n) ↔ (IsTrue (has numbers n) ⊎ IsTrue (has self.now.numbers n))) }
        ensures kept { IfOk result (λ l. (o : OriginValue) (bytes : List ℕ) → IsFileOf o numbers bytes → IsFileBut o l.numbers l.waiting.items bytes) }
    {
        let mut ledger = Ledger::new(alloc, numbers);
        ledger.note(&members(alloc, &self.numbers)?)?;
        Ok(ledger)
    }
}
