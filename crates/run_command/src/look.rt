//! A look at what lies among the offers: when it is time for one, and what becomes of what it found.

ghost use Rattle.std.specs.Prelude.{◌≡◌, ◌&&◌, is_some, not};
ghost use Rattle.looks.specs.Looking.{is_due};
ghost use Rattle.run_command.specs.Working.{Follows, Looked};

use crate::plant::Papers;
use crate::status::note_found;
use crate::unseen::{Unseen, UnseenPart};
use driver::Log;
use folders::{FolderFault, Folders};
use looks::{EndedLook, MOST_NAMES};
use plant_log::tell_news;
use std::io::Write;

impl Papers {
    /// Takes in all that a look found, at a moment: at once where it is little, and else a part at a time, each in a turn of its own.
    fn see_ended<E: Write>(&mut self, seen: EndedLook, now: u64, log: &mut Log<'_, E>)
        ensures { Follows self.old.book self.new.book }
    {
        note_found(&mut self.journal.keeper, seen.requests.len());
        let is_crowded = seen.is_crowded();
        let part = UnseenPart::All(seen);
        self.unseen = Some(Unseen { part, looked: now });
        if is_crowded {
            return;
        }
        self.see_next(now, log);
        self.see_next(now, log);
        self.see_next(now, log);
        self.see_next(now, log);
        self.see_next(now, log);
    }

    /// Goes on with a look at what lies among the offers, or begins one, at a moment.
    pub(crate) fn look_at_offers<F: Folders, E: Write>(
        &mut self,
        folders: &mut F,
        now: u64,
        log: &mut Log<'_, E>,
    )
        ensures { Looked (F.doings folders.old) (F.doings folders.new) self.old.book self.new.book }
    {
        let listing = match folders.list(self.journal.alloc, MOST_NAMES) {
            Ok(listing) => listing,
            Err(fault) => {
                self.looking.fail(now);
                self.journal.told.cannot_list(fault, now, log.err);
                return;
            }
        };
        tell_news(self.journal.alloc, listing.news.as_slice(), log.err);
        match self.looking.push(listing, now) {
            Some(Ok(seen)) => self.see_ended(seen, now, log),
            Some(Err(_)) => {
                let told = &mut self.journal.told;
                told.cannot_list(FolderFault::OutOfMemory, now, log.err);
            }
            None => {}
        }
    }

    /// Whether it is time for a look, or for more of one, at a moment: not before all is taken in that the last one found.
    fn is_due(&self, now: u64) -> bool
        ensures { result ≡ (not (is_some self.now.unseen) && is_due self.now.looking.stage now) }
    {
        self.unseen.is_none() && self.looking.is_due(now)
    }

    /// The same, where it is time for a look.
    pub(crate) fn look_if_due<F: Folders, E: Write>(
        &mut self,
        folders: &mut F,
        now: u64,
        log: &mut Log<'_, E>,
    )
        ensures { Looked (F.doings folders.old) (F.doings folders.new) self.old.book self.new.book }
    {
        if self.is_due(now) {
            self.look_at_offers(folders, now, log);
        }
    }
}
