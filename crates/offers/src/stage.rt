//! What is known of a file among the offers, and what news of it makes of that.

ghost use Rattle.std.specs.Prelude.{◌≡◌, ◌<◌, ℕ, option_copied};
ghost use Rattle.offers.specs.Stages.{later, longer, first_tries, longer_tries, one_more, put_back, found_nothing, put_off, landed, after, anew, wish_of};

use folders::{LAST_PAUSE, Wish};
use refusals::StepRefusal;
use tape_frames::TapeFault;
use text_tape::PunchError;

/// Why a file is no offer, though its name asks for something.
#[derive(Clone, Copy)]
pub enum OfferFault {
    /// It holds no tape.
    Tape(TapeFault),
    /// It holds no text that becomes a tape.
    Text(PunchError),
    /// It holds a text of more bytes than one may have.
    LongText,
    /// It is a text, and none may be offered here.
    NoTexts,
    /// The station does not take it, and never will.
    Step(StepRefusal),
}

/// What came of it so far that the station was asked for a file.
#[derive(Clone, Copy)]
pub struct Tries {
    /// How long the file waits where it comes to nothing once more, in milliseconds.
    pub pause: u64,
    /// How often a majority knew of nothing: nine times at most. The tenth time a search is answered.
    pub nothings: u8,
}

/// What is known of a file among the offers. Moments and pauses are in milliseconds.
#[derive(Drop)]
pub enum Stage {
    /// It was not read yet, and is from this moment on, once it is whole. It may be in place of one that was under way as it was changed.
    Watched {
        at: u64,
        replaced: bool,
    },
    /// It was read. From this moment on the station is asked for it, or it leaves the offers, where its number was released.
    Waiting {
        wish: Wish,
        at: u64,
        tries: Tries,
    },
    /// The station was asked for it, and it is not known yet what came of that.
    UnderWay {
        wish: Wish,
        tries: Tries,
    },
    /// It is no offer, and leaves the offers from this moment on. Where it can't be moved, it waits this long.
    Refused {
        reason: OfferFault,
        at: u64,
        pause: u64,
    },
    /// It is a search that found nothing ten times, and leaves the offers from this moment on. Where it can't be moved, it waits this long.
    Answered {
        at: u64,
        pause: u64,
    },
    /// It has left the offers.
    Gone,
}

/// What became of a number under way.
#[derive(Clone, Copy)]
pub enum Landing {
    /// Its ballots came to no end, or the station does not take it now.
    Ended,
    /// A majority knows of nothing.
    Nothing,
    /// The station has it open already, for a file that is not known of here.
    Busy,
    /// The station does not take it, and never will.
    Barred { reason: OfferFault },
    /// It was released.
    Released,
}

/// What there is to tell of a file.
#[derive(Drop)]
pub enum FileNews {
    /// It was read, and asks for this.
    Read(Wish),
    /// It was read, and is no offer.
    NoOffer(OfferFault),
    /// The station is asked for it.
    Asked,
    /// It could not be read, or moved.
    PutOff,
    /// It has left the offers.
    Moved,
    /// This became of its number.
    Landed(Landing),
}

/// The pause after what came to nothing, the first time.
const FIRST_PAUSE: u64 = 1000;

/// How often a search finds nothing and is asked for again. The next time it is answered.
const MOST_NOTHINGS: u8 = 9;

/// So much later, or the last moment that there is.
fn later(now: u64, pause: u64) -> u64
    ensures { result ≡ later now pause }
{
    now.saturating_add(pause)
}

/// The pause after this one: twice as long, and a minute at most.
fn longer(pause: u64) -> u64
    ensures { result ≡ longer pause }
{
    pause.saturating_mul(2).min(LAST_PAUSE)
}

/// Nothing came of it yet.
fn first_tries() -> Tries
    ensures { result ≡ first_tries }
{
    Tries {
        pause: FIRST_PAUSE,
        nothings: 0,
    }
}

/// It came to nothing once more.
fn longer_tries(tries: Tries) -> Tries
    ensures { result ≡ longer_tries tries }
{
    Tries {
        pause: longer(tries.pause),
        nothings: tries.nothings,
    }
}

/// A majority knew of nothing once more.
fn one_more(tries: Tries) -> Tries
    requires { tries.nothings < 9 }
    ensures { result ≡ one_more tries }
{
    Tries {
        pause: tries.pause,
        nothings: tries.nothings + 1,
    }
}

/// It was read, and the station is asked, or it leaves the offers, from this moment on.
fn waiting(wish: Wish, from: u64) -> Stage
    ensures { result ≡ Stage.Waiting wish from first_tries }
{
    Stage::Waiting {
        wish,
        at: from,
        tries: first_tries(),
    }
}

/// It is no offer, and leaves the offers at once.
fn refused(reason: OfferFault) -> Stage
    ensures { result ≡ Stage.Refused reason 0 1000 }
{
    Stage::Refused {
        reason,
        at: 0,
        pause: FIRST_PAUSE,
    }
}

/// It is a search that was answered, and leaves the offers at once.
fn answered() -> Stage
    ensures { result ≡ Stage.Answered 0 1000 }
{
    Stage::Answered {
        at: 0,
        pause: FIRST_PAUSE,
    }
}

/// It waits once more, from a moment on.
fn put_back(wish: Wish, tries: Tries, now: u64) -> Stage
    ensures { result ≡ put_back wish tries now }
{
    Stage::Waiting {
        wish,
        at: later(now, tries.pause),
        tries: longer_tries(tries),
    }
}

/// A majority knows of nothing: a search waits once more, or is answered; an entry that was offered waits once more.
fn found_nothing(wish: Wish, tries: Tries, now: u64) -> Stage
    ensures { result ≡ found_nothing wish tries now }
{
    match wish {
        Wish::Offered(entry) => put_back(Wish::Offered(entry), tries, now),
        Wish::Sought => {
            if tries.nothings >= MOST_NOTHINGS {
                answered()
            } else {
                put_back(Wish::Sought, one_more(tries), now)
            }
        }
    }
}

impl Stage {
    /// A file that was found the first time, or was changed, is watched from now on.
    pub(crate) fn watched(now: u64, replaced: bool) -> Stage
        ensures { result ≡ Stage.Watched now replaced }
    {
        Stage::Watched { at: now, replaced }
    }

    /// What is known of a file that was changed.
    pub(crate) fn anew(&self, now: u64) -> Stage
        ensures { result ≡ anew now self.now }
    {
        match self {
            Stage::Watched { replaced, .. } => Stage::watched(now, *replaced),
            Stage::UnderWay { .. } => Stage::watched(now, true),
            _ => Stage::watched(now, false),
        }
    }

    /// What the file asks for, where that is known.
    pub(crate) fn wish(&self) -> Option<&Wish>
        ensures { option_copied result ≡ wish_of self.now }
    {
        match self {
            Stage::Waiting { wish, .. } | Stage::UnderWay { wish, .. } => Some(wish),
            _ => None,
        }
    }

    /// The same, after a pause once more.
    fn put_off(self, now: u64) -> Stage
        ensures { result ≡ put_off now self }
    {
        match self {
            Stage::Watched { replaced, .. } => Stage::Watched {
                at: later(now, LAST_PAUSE),
                replaced,
            },
            Stage::Waiting { wish, tries, .. } => put_back(wish, tries, now),
            Stage::Refused { reason, pause, .. } => Stage::Refused {
                reason,
                at: later(now, pause),
                pause: longer(pause),
            },
            Stage::Answered { pause, .. } => Stage::Answered {
                at: later(now, pause),
                pause: longer(pause),
            },
            _ => self,
        }
    }

    /// The same, once it was read.
    fn read(self, wish: Wish) -> Stage
        ensures { (now : ℕ) → result ≡ after (FileNews.Read wish) now self }
    {
        match self {
            Stage::Watched { at, .. } => waiting(wish, at),
            _ => self,
        }
    }

    /// The same, once it was read and is no offer.
    fn no_offer(self, reason: OfferFault) -> Stage
        ensures { (now : ℕ) → result ≡ after (FileNews.NoOffer reason) now self }
    {
        match self {
            Stage::Watched { .. } => refused(reason),
            _ => self,
        }
    }

    /// The same, once the station is asked for it.
    fn asked(self) -> Stage
        ensures { (now : ℕ) → result ≡ after FileNews.Asked now self }
    {
        match self {
            Stage::Waiting { wish, tries, .. } => Stage::UnderWay { wish, tries },
            _ => self,
        }
    }

    /// The same, once what it asked for came to nothing.
    fn ended(self, now: u64) -> Stage
        ensures { result ≡ landed Landing.Ended now self }
    {
        match self {
            Stage::UnderWay { wish, tries } => put_back(wish, tries, now),
            _ => self,
        }
    }

    /// The same, once a majority was found to know of nothing.
    fn nothing(self, now: u64) -> Stage
        ensures { result ≡ landed Landing.Nothing now self }
    {
        match self {
            Stage::UnderWay { wish, tries } => found_nothing(wish, tries, now),
            _ => self,
        }
    }

    /// The same, once the station was found to have its number open already: it is asked again a second later, and the pause does not
    /// grow, so that a ballot that goes on for long keeps the file from nothing.
    fn held(self, now: u64) -> Stage
        ensures { result ≡ landed Landing.Busy now self }
    {
        match self {
            Stage::UnderWay { wish, tries } => Stage::Waiting {
                wish,
                at: later(now, FIRST_PAUSE),
                tries,
            },
            _ => self,
        }
    }

    /// The same, once the station does not take what it asked for, and never will.
    fn barred(self, reason: OfferFault) -> Stage
        ensures { (now : ℕ) → result ≡ landed (Landing.Barred reason) now self }
    {
        match self {
            Stage::UnderWay { .. } => refused(reason),
            _ => self,
        }
    }

    /// The same, once its number was released: it leaves the offers at once, where it was read.
    fn released(self) -> Stage
        ensures { (now : ℕ) → result ≡ landed Landing.Released now self }
    {
        match self {
            Stage::Waiting { wish, .. } => waiting(wish, 0),
            Stage::UnderWay { wish, .. } => waiting(wish, 0),
            _ => self,
        }
    }

    /// The same, once this became of its number.
    fn landed(self, landing: Landing, now: u64) -> Stage
        ensures { result ≡ landed landing now self }
    {
        match landing {
            Landing::Ended => self.ended(now),
            Landing::Nothing => self.nothing(now),
            Landing::Busy => self.held(now),
            Landing::Barred { reason } => self.barred(reason),
            Landing::Released => self.released(),
        }
    }

    /// What is known after some news.
    pub(crate) fn after(self, news: FileNews, now: u64) -> Stage
        ensures { result ≡ after news now self }
    {
        match news {
            FileNews::Read(wish) => self.read(wish),
            FileNews::NoOffer(reason) => self.no_offer(reason),
            FileNews::Asked => self.asked(),
            FileNews::PutOff => self.put_off(now),
            FileNews::Moved => Stage::Gone,
            FileNews::Landed(landing) => self.landed(landing, now),
        }
    }
}
