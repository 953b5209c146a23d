//! The plant of a station as the desk of its driver.

ghost use Rattle.std.specs.Prelude.{[], ◌≡◌, if◌then◌else◌};
ghost use Rattle.std.proofs.Common.{refl, ◌∙◌};
ghost use Rattle.run_command.specs.Living.{CameOn, HandsOut, IsSameDesk, LivedOn, MayAsk, kept, kept_of, texts_of};
ghost use Rattle.run_command.specs.Lives.{plant_fates};

use crate::calls::{call_for, is_of_offer};
use crate::plant::Plant;
use crate::range_asks::released_tape;
use crate::status::note_asked;
use command_ends::Fault;
use driver::{
    Call, Chance, Declined, Denied, Desk, HeardDatagram, Log, Sink, TakenStep, Tasks, Todo,
};
use folders::{FileRequest, Folders};
use offers::OfferFault;
use pace::Deeds;
use plant_status::StatusFile;
use station::StepRefusal;
use std::io::Write;

/// The plant of a station, as its driver works with it.
#[derive(Drop)]
pub(crate) struct PlantDesk<'d, F: Folders, S: StatusFile> {
    pub(crate) folders: &'d mut F,
    pub(crate) plant: &'d mut Plant,
    /// Where its status goes.
    pub(crate) status: &'d mut S,
}

/// What there is to do with files, where there is something besides what the book knows, or there is not.
fn deeds_of(deeds: Deeds, has_more: bool) -> Deeds
    ensures { result ≡ (if has_more then Deeds.Others else deeds) }
{
    if has_more { Deeds::Others } else { deeds }
}

impl<'d, F: Folders, S: StatusFile> PlantDesk<'d, F, S> {
    /// Over the folders of a plant.
    pub(crate) fn new(
        folders: &'d mut F,
        plant: &'d mut Plant,
        status: &'d mut S,
    ) -> PlantDesk<'d, F, S>
        ensures folders { result.folders.ghost_name ≡ folders.entry.ghost_name }
        ensures texts { texts_of result ≡ plant.old.texts }
        ensures kept { kept_of result ≡ kept folders.old plant.old.waits plant.old.papers.book }
    {
        PlantDesk {
            folders,
            plant,
            status,
        }
    }
}

impl<F: Folders, S: StatusFile> Sink for PlantDesk<'_, F, S> {
    ghost lived = { λ old new log. LivedOn F.doings old new log };

    ghost front = { λ old new log. CameOn F.doings old new log };

    ghost may = { λ it call. MayAsk (texts_of it) (kept_of it) call };

    fn hear<E: Write>(&mut self, heard: &HeardDatagram, now: u64, log: &mut Log<'_, E>) {
        self.plant.papers.journal.hear(heard, now, log);
    }

    ghost fates = { plant_fates F.doings (λ a b. IsSameDesk a b) (λ _. (refl, refl)) (λ _ _ _ p q. (q.0 ∙ p.0, q.1 ∙ p.1)) (λ it. texts_of it) (λ _ _ same. same.1) (λ it. kept_of it) };
}

impl<F: Folders, S: StatusFile> Desk for PlantDesk<'_, F, S> {
    ghost is_still = { λ old new. F.doings new.folders.now ≡ F.doings old.folders.now };

    ghost handed = { λ old new _. HandsOut F.doings F.refuses (kept_of old) (kept_of new) };

    fn note<E: Write>(
        &mut self,
        step: &TakenStep,
        log: &mut Log<'_, E>,
    ) -> Result<(), Fault<'static>> {
        let alloc = self.plant.papers.journal.alloc;
        self.plant.waits.keep(alloc, &step.answer.release)?;
        self.plant.papers.note(step, log);
        Ok(())
    }

    // All that was saved is stored. All files that wait are written together, so that one save of the folder is enough for them. What the
    // folder does not take waits on. Then each release is told, and files leave the offers that asked for it.
    fn hand_out<E: Write>(&mut self, steps: &[TakenStep], now: u64, log: &mut Log<'_, E>) {
        self.plant.write(self.folders, true, now, log);
        self.plant.settle_each(self.folders, steps, now, log);
    }

    fn tasks(&mut self) -> Tasks {
        let is_all_written = self.plant.waits.is_filed();
        let deeds = self.plant.papers.book.deeds(is_all_written);
        let under_way = self.plant.papers.book.under_way();
        Tasks {
            deeds: deeds_of(deeds, self.plant.papers.has_more()),
            under_way,
        }
    }

    // What waits is written; whether the file that ends the run lies there is looked for each time.
    fn look<E: Write>(&mut self, now: u64, log: &mut Log<'_, E>) -> bool {
        self.plant.write(self.folders, false, now, log);
        let unwritten = self.plant.waits.len();
        self.plant.papers.look_if_due(self.folders, now, log);
        self.plant.see_to_missing(self.folders, now, log);
        let papers = &mut self.plant.papers;
        let is_over = papers.journal.is_over(self.folders, now, log);
        papers.journal.tell_status(unwritten, self.status, now, log);
        is_over
    }

    // While a look goes on, each second deed is a part of it; what it found is taken in before anything else, so that no file waits for others
    // that were found before; of the others each second is an errand of catching up, where there is one.
    fn deed<E: Write>(&mut self, chance: Chance, log: &mut Log<'_, E>) -> Option<Todo> {
        if self.plant.papers.looking.takes_turn() {
            self.plant
                .papers
                .look_at_offers(self.folders, chance.moment, log);
            return None;
        }
        if self.plant.papers.unseen.is_some() {
            self.plant.papers.see_next(chance.moment, log);
            return None;
        }
        if let Some(errand) = self.plant.papers.journal.care.next(chance) {
            // What is asked for is told before what comes of it.
            self.plant
                .papers
                .journal
                .care
                .tell_missed(chance.moment, log);
            return Some(Todo::Run(errand));
        }
        match self.deed_with_file(chance, log) {
            Some(request) => {
                note_asked(&mut self.plant.papers.journal.keeper, &request);
                Some(Todo::Ask(request))
            }
            None => None,
        }
    }

    fn call(&self, request: &FileRequest) -> Option<Call<'_>> {
        match self.plant.papers.book.wish(*request) {
            Some(wish) => Some(call_for(wish, request.number.get())),
            None => None,
        }
    }

    // Another file of its number is under way, it is no offer, or it waits.
    fn deny<E: Write>(&mut self, denied: Denied, _log: &mut Log<'_, E>) {
        let number = denied.request.number;
        let book = &mut self.plant.papers.book;
        match denied.refusal {
            StepRefusal::AlreadyOpen => {
                book.busy(number, denied.moment);
            }
            refusal if is_of_offer(refusal) => {
                book.barred(number, OfferFault::Step(refusal));
            }
            _ => {
                book.ended(number, denied.moment);
            }
        }
    }

    fn decline<E: Write>(&mut self, declined: Declined, _log: &mut Log<'_, E>) {
        let released = released_tape(&self.plant.papers.book, declined.number);
        self.plant.papers.journal.care.decline(declined, released);
    }
}
