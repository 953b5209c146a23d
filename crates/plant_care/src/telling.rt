//! What is told of catching up: which numbers are asked for, what came of them, and what went out before that was kept.

ghost use Rattle.std.specs.Prelude.{◌≡◌};
ghost use Rattle.catch_up_log.specs.Missed.{missed_after};
ghost use Rattle.plant_care.specs.Caring.{KeepsRest, NotesBefore};
ghost use Rattle.plant_care.specs.Starting.{IsOff};

use crate::care::Care;
use crate::ranges::look_by_hand;
use ballots::Number;
use catch_up::{CatchUp, ToldBy, Wave};
use catch_up_log::{Caught, tell_caught_up, tell_few, tell_missing};
use driver::Log;
use folders::Folders;
use gone_out::Numbers;
use std::alloc::Global;
use std::io::Write;

/// These numbers went out before that was kept, and are to be noted. One for which there is no memory is asked for at the next start.
fn note_all(before: &mut Vec<Number>, numbers: &Numbers) {
    for below in 0..Number::LAST {
        if let Some(number) = Number::new(below + 1)
            && numbers.contains(number)
        {
            let _ = before.push(number);
        }
    }
}

/// Tells at the first start that keeps what went out, once a majority told its votes, which numbers may be missing here, and notes them.
fn tell_from_before<E: Write>(
    alloc: Global,
    catch_up: &mut CatchUp,
    before: &mut Vec<Number>,
    log: &mut Log<'_, E>,
)
    ensures { catch_up.new.asks ≡ catch_up.old.asks }
{
    if let Some(numbers) = catch_up.take_from_before() {
        tell_missing(alloc, &numbers, log.err);
        note_all(before, &numbers);
    }
}

impl Care {
    /// Once all numbers that are asked for are told, tells what came of them, where nothing is lacked any more, unless faults alone are told;
    /// or, where no majority told its votes, by how many they were told, once.
    fn tell_wave<E: Write>(&mut self, log: &mut Log<'_, E>)
        ensures { KeepsRest self.old self.new }
    {
        if !self.missed.is_empty() {
            return;
        }
        if let Some(wave) = self.catch_up.take_wave() {
            let Wave {
                released,
                nothing,
                ..
            } = wave;
            if !self.is_quiet {
                tell_caught_up(self.alloc, Caught { released, nothing }, log.err);
            }
            self.told_few = false;
            self.lacked = None;
        } else if self.catch_up.lacks_a_majority() && !self.told_few {
            let ToldBy { others, told } = self.catch_up.told_by();
            tell_few(self.alloc, others, told, log.err);
            self.told_few = true;
        }
    }

    /// Tells at a moment which numbers are asked for from now on, as far as that is not told yet: at most once a second.
    pub fn tell_missed<E: Write>(&mut self, now: u64, log: &mut Log<'_, E>)
        ensures { self.new ≡ record self.old { missed = missed_after self.old.missed now } }
    {
        self.missed.tell(self.alloc, now, log.err);
    }

    /// A look at the folders came to pass, at a moment: where it could not be read what went out, that is tried again; what is lacked is
    /// looked for again, and what is asked for by hand; what there is to tell is told. These numbers were released since the start, and are not
    /// noted yet. If there are none, what went out before that was kept is noted; so no record of it stands before the files of a release.
    pub fn look<F: Folders, E: Write>(
        &mut self,
        folders: &mut F,
        released: &[Number],
        now: u64,
        log: &mut Log<'_, E>,
    )
        ensures does { NotesBefore released.now (F.doings folders.old) (F.doings folders.new) }
        ensures off { IsOff self.old → IsOff self.new }
    {
        self.begin_again(folders, released, now, log);
        self.catch_up.look();
        look_by_hand(&mut self.ask);
        self.tell_missed(now, log);
        self.tell_wave(log);
        tell_from_before(self.alloc, &mut self.catch_up, &mut self.before, log);
        if released.is_empty() {
            self.note_before(folders, now, log);
        }
    }
}
