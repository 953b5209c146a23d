//! What came of what was done with a file, and of what the station was asked.

ghost use Rattle.std.specs.Prelude.{◌≡◌, OnOk, OnErr, true, false};
ghost use Rattle.offers.specs.Order.{rank};
ghost use Rattle.offers.specs.Stages.{after, changed, news_of};
ghost use Rattle.offers.specs.Answers.{landed_in, Keeps, Lands, Releases};
ghost use Rattle.offers.specs.UnderWay.{begins};

use crate::book::Book;
use crate::edits::{tell, tell_all};
use crate::marks::remark;
use crate::stage::{FileNews, Landing, OfferFault};
use crate::under_way::is_under_way;
use ballots::Number;
use folders::{FileRequest, Wish};
use std::alloc::AllocError;
use std::collections::BTreeMap;
use tape_frames::Entry;

/// What there is to tell of a file that was read.
fn news_of(wish: Result<Wish, OfferFault>) -> FileNews
    ensures { result ≡ news_of wish }
{
    match wish {
        Ok(wish) => FileNews::Read(wish),
        Err(reason) => FileNews::NoOffer(reason),
    }
}

/// Keeps in mind what was released under a number.
fn keep(released: &mut BTreeMap<u32, Entry>, number: Number, entry: Entry) -> Result<(), AllocError>
    ensures ok { OnOk result (Keeps number entry released.old.entries released.new.entries) }
    ensures err { OnErr result (released.new.entries ≡ released.old.entries) }
{
    match released.insert(number.get(), entry) {
        Ok(_) => Ok(()),
        Err(_) => Err(AllocError),
    }
}

impl Book {
    /// Takes in some news of a file, which puts none under way.
    fn note(&mut self, request: FileRequest, news: FileNews, now: u64)
        requires { begins news ≡ false }
        ensures { self.new ≡ record self.old { files = changed (rank request) (after news now) self.old.files; asks = true } }
    {
        let number = request.number;
        self.asks = true;
        tell(&mut self.offers, request, news, now);
        remark(&mut self.marks, self.offers.as_slice(), &self.known, number);
    }

    /// A file was read, and asks for this, or is no offer.
    pub fn was_read(&mut self, request: FileRequest, wish: Result<Wish, OfferFault>)
        ensures { self.new ≡ record self.old { files = changed (rank request) (after (news_of wish) 0) self.old.files; asks = true } }
    {
        self.note(request, news_of(wish), 0);
    }

    /// A file could not be read, or moved, at a moment.
    pub fn could_not(&mut self, request: FileRequest, now: u64)
        ensures { self.new ≡ record self.old { files = changed (rank request) (after FileNews.PutOff now) self.old.files; asks = true } }
    {
        self.note(request, FileNews::PutOff, now);
    }

    /// A file was moved: it is no longer among the offers.
    pub fn moved(&mut self, request: FileRequest)
        ensures { self.new ≡ record self.old { files = changed (rank request) (after FileNews.Moved 0) self.old.files; asks = true } }
    {
        self.note(request, FileNews::Moved, 0);
    }

    /// This became of a number, at a moment: it is no longer under way. Whether it was.
    fn land(&mut self, number: Number, landing: Landing, now: u64) -> bool
        ensures { Lands number landing now self.old self.new result }
    {
        let was_under_way = is_under_way(self.known.window.numbers(), number);
        self.asks = true;
        self.known.window.leave(number);
        tell_all(&mut self.offers, number, landing, now);
        remark(&mut self.marks, self.offers.as_slice(), &self.known, number);
        was_under_way
    }

    /// What the station was asked for a number came to nothing, at a moment: its ballots came to no end, or the station does not take it now.
    /// Its file is put off, by a second the first time and twice as long each time, a minute at most. Whether the number was under way: only
    /// then is there something to tell.
    pub fn ended(&mut self, number: Number, now: u64) -> bool
        ensures { Lands number Landing.Ended now self.old self.new result }
    {
        self.land(number, Landing::Ended, now)
    }

    /// A majority knows of nothing under a number, for which the station was asked, at a moment: its file is put off as by
    /// [`ended`](Book::ended). A search for which that is the tenth time since it was found as it is leaves the offers at once, for those that
    /// are done. Whether the number was under way.
    pub fn found_nothing(&mut self, number: Number, now: u64) -> bool
        ensures { Lands number Landing.Nothing now self.old self.new result }
    {
        self.land(number, Landing::Nothing, now)
    }

    /// The station has a number open already, which it was asked for at a moment: its file is asked for again a second later, and its
    /// pause does not grow. Whether the number was under way.
    pub fn busy(&mut self, number: Number, now: u64) -> bool
        ensures { Lands number Landing.Busy now self.old self.new result }
    {
        self.land(number, Landing::Busy, now)
    }

    /// The station does not take what it was asked for a number, and never will: its file is no offer. Whether the number was under way.
    pub fn barred(&mut self, number: Number, reason: OfferFault) -> bool
        ensures { Lands number (Landing.Barred reason) 0 self.old self.new result }
    {
        self.land(number, Landing::Barred { reason }, 0)
    }

    /// This entry was released under a number, at a moment: the files of it that were read leave the offers. Where there is no memory to
    /// keep the entry in mind, what the station was asked for it is put off, as if it had come to nothing.
    pub fn released(&mut self, number: Number, entry: Entry, now: u64) -> Result<(), AllocError>
        ensures ok { OnOk result (Releases number entry self.old self.new) }
        ensures err { OnErr result (self.new ≡ landed_in number Landing.Ended now self.old) }
    {
        self.asks = true;
        match keep(&mut self.known.released, number, entry) {
            Err(_) => {
                self.ended(number, now);
                Err(AllocError)
            }
            Ok(()) => {
                let window = &mut self.known.window;
                window.leave(number);
                tell_all(&mut self.offers, number, Landing::Released, 0);
                remark(&mut self.marks, self.offers.as_slice(), &self.known, number);
                Ok(())
            }
        }
    }
}
