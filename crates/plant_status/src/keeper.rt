//! What is kept in mind for a status.

ghost use Rattle.std.specs.Prelude.{◌≡◌, Some, None, true, false};
ghost use Rattle.plant_status.specs.Timing.{is_due, is_past, is_told, span_of};

use crate::instant::Instant;
use crate::last_heard::{LastHeard, hear, is_past, others, speak};
use crate::moment::Moment;
use crate::status::{
    Busy, HeardMember, Missing, NumberSpan, OfferCounts, Released, StationId, Status,
};
use crate::under_way::UnderWay;
use ballots::{Ballot, Member, Number};
use std::alloc::{AllocError, Global};

/// How long a status stands where something changed, in milliseconds.
const SOON: u64 = 1_000;

/// How long it stands where nothing did.
const LATER: u64 = 30_000;

/// How long it is not told again that it can't be written.
const HOUR: u64 = 3_600_000;

/// What stands at a plant, as it is counted when its status is written.
#[derive(Drop)]
pub struct PlantCounts {
    pub released: Released,
    /// What is missing, by its first ranges, and whether there are more.
    pub missing: Vec<NumberSpan>,
    pub more: bool,
    /// How many files wait to be written among the releases.
    pub unwritten: u32,
}

/// What is kept in mind for a status. Moments are in milliseconds.
#[derive(Drop)]
pub struct Keeper {
    alloc: Global,
    station: StationId,
    /// When the station was first looked at.
    since: Option<u64>,
    others: Vec<LastHeard>,
    under_way: UnderWay,
    offers: OfferCounts,
    /// A number that is missing, and since when it is so.
    witness: Option<(u32, u64)>,
    /// Whether something changed since the status was written last.
    is_changed: bool,
    /// When it was written last, or was to be.
    written: Option<u64>,
    /// When it was told last that it can't be written.
    told: Option<u64>,
}

impl Keeper {
    /// Nothing is known yet of a station.
    ///
    /// # Errors
    ///
    /// Out of memory.
    pub fn new(alloc: Global, station: StationId) -> Result<Keeper, AllocError> {
        Ok(Keeper {
            alloc,
            station,
            since: None,
            others: others(alloc, station.member, station.count)?,
            under_way: UnderWay::new(alloc),
            offers: OfferCounts {
                waiting: 0,
                lost: 0,
                refused: 0,
            },
            witness: None,
            is_changed: false,
            written: None,
            told: None,
        })
    }

    /// A member was heard, at a moment.
    pub fn hear(&mut self, member: Member, now: u64) {
        if hear(self.others.as_mut_slice(), member, now) {
            self.is_changed = true;
        }
    }

    /// A packet of a member showed that its rows are of layout 1, while those of this station are of layout 2; or that this is not so.
    pub fn speak(&mut self, member: Member, is_older: bool) {
        if speak(self.others.as_mut_slice(), member, is_older) {
            self.is_changed = true;
        }
    }

    /// A file asks for a number that is no search.
    pub fn offer(&mut self, number: Number) {
        self.under_way.offer(number);
    }

    /// A ballot of a number began.
    pub fn begin(&mut self, number: Number, ballot: Ballot) {
        self.under_way.begin(number, ballot);
        self.is_changed = true;
    }

    /// A number is no longer under way.
    pub fn end(&mut self, number: Number) {
        self.under_way.end(number);
        self.is_changed = true;
    }

    /// So many files are among the offers.
    pub fn find(&mut self, files: usize) {
        let waiting = u32::try_from(files).unwrap_or(u32::MAX);
        if self.offers.waiting != waiting {
            self.offers.waiting = waiting;
            self.is_changed = true;
        }
    }

    /// A file left the offers whose story is lost.
    pub fn lose(&mut self) {
        self.offers.lost = self.offers.lost.saturating_add(1);
        self.is_changed = true;
    }

    /// A file left the offers that is no offer.
    pub fn refuse(&mut self) {
        self.offers.refused = self.offers.refused.saturating_add(1);
        self.is_changed = true;
    }

    /// Whether the status is to be written, at a moment: something changed a second ago or more since it was written, or that is half a
    /// minute ago.
    pub fn is_due(&self, now: u64) -> bool
        ensures { result ≡ is_due self.now now }
    {
        let span = if self.is_changed { SOON } else { LATER };
        is_past(self.written, span, now)
    }

    /// The number by which something is known to be missing.
    pub fn witness(&self) -> Option<u32> {
        match self.witness {
            Some((number, _)) => Some(number),
            None => None,
        }
    }

    /// Whether that number is still missing, at a moment, and which is the first that is.
    pub fn watch(&mut self, is_still: bool, first: Option<u32>, now: u64) {
        if is_still && self.witness.is_some() {
            return;
        }
        self.witness = match first {
            Some(number) => Some((number, now)),
            None => None,
        };
    }

    /// What is missing of which this is counted, if something is.
    fn missing(&self, spans: Vec<NumberSpan>, more: bool, instant: &Instant) -> Option<Missing> {
        match self.missing_since(instant) {
            Some(since) if !spans.is_empty() => Some(Missing { spans, more, since }),
            _ => None,
        }
    }

    /// Since when the number is missing by which something is known to be.
    fn missing_since(&self, instant: &Instant) -> Option<Moment> {
        let (_, since) = self.witness?;
        instant.moment(since)
    }

    /// When the others were heard, and the numbers under way.
    fn lists(&self, instant: &Instant) -> Result<(Vec<HeardMember>, Vec<Busy>), AllocError> {
        let heard = instant.all_heard(self.alloc, self.others.as_slice())?;
        let busy = self.under_way.list(self.alloc)?;
        Ok((heard, busy))
    }

    /// The status at a moment, so many seconds after 1970 began; nothing where no calendar has the moment. From then on it is written.
    ///
    /// # Errors
    ///
    /// Out of memory.
    pub fn status(
        &mut self,
        counts: PlantCounts,
        now: u64,
        seconds: u64,
    ) -> Result<Option<Status>, AllocError> {
        let instant = Instant { now, seconds };
        let since = self.since.unwrap_or(now);
        self.since = Some(since);
        let (Some(since), Some(written)) = (instant.moment(since), instant.moment(now)) else {
            return Ok(None);
        };
        let (members, busy) = self.lists(&instant)?;
        let PlantCounts {
            released,
            missing,
            more,
            unwritten,
        } = counts;
        Ok(Some(Status {
            station: self.station,
            since,
            members,
            released,
            busy,
            missing: self.missing(missing, more, &instant),
            offers: self.offers,
            unwritten,
            written,
        }))
    }

    /// The status was written at a moment, or could not be.
    pub fn written(&mut self, now: u64)
        ensures { self.new ≡ record self.old { written = Some now; is_changed = false } }
    {
        self.written = Some(now);
        self.is_changed = false;
    }

    /// The status could not be written, at a moment; whether that is told: the first time, and again each hour.
    pub fn fail(&mut self, now: u64) -> bool
        ensures told { result ≡ is_told self.old.told now }
    {
        let is_told = is_past(self.told, HOUR, now);
        if is_told {
            self.told = Some(now);
        }
        is_told
    }

    /// The status could be written: the next time that it can't be is told.
    pub fn succeed(&mut self)
        ensures { self.new ≡ record self.old { told = None } }
    {
        self.told = None;
    }
}
