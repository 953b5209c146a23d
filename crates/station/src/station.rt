//! A station, and what can be read of it.

ghost use Rattle.std.specs.Prelude.{◌≡◌, ◌≤◌, ◌↔◌, List, [], true, false, None, IsOk, IfOk, IfErr};
ghost use Rattle.std.specs.Borrow.{Lends, sem};
ghost use Rattle.protocol.specs.Marks.{Mark};
ghost use Rattle.protocol.specs.Proposals.{was_released, open_ballot};
ghost use Rattle.protocol.specs.Limits.{most_members};
ghost use Rattle.node_core.specs.Standing.{StandsFor, OfItsMarks};
ghost use Rattle.station.specs.Stations.{IsFixed, with_rows};
ghost use Rattle.station.specs.contracts.station.Station.{the_row};

use crate::speaker::Speaker;
use ballots::{Ballot, Member, Number};
use code_table::CodeTable;
use line_check::Setting;
use node_core::NodeCore;
use rows_saved::Rows;
use std::alloc::Global;
use widths::Widths;

/// A member of a circuit: its core, its code table and widths, and its saved rows, whose version is its own.
/// Clauses see these, whether it has stopped, and the version in which it spoke last.
#[derive(Drop)]
pub struct Station<R: Rows> {
    pub(crate) speaker: Speaker,
    pub(crate) table: CodeTable,
    pub(crate) widths: Widths,
    pub(crate) rows: R,
    pub(crate) stopped: bool,
    pub(crate) alloc: Global,
}

/// Where a station stands: in which circuit, and as which of how many members, which are counted from 1.
#[derive(Clone, Copy)]
pub struct Membership {
    pub circuit: u16,
    pub me: u8,
    pub members: u8,
}

/// What [`Station::new`] was given, handed back: the member is not 1 to the member count, or the count is above 15.
#[derive(Drop)]
pub struct BadMember<R: Rows> {
    pub table: CodeTable,
    pub widths: Widths,
    pub rows: R,
}

impl<R: Rows> Station<R> {
    /// The member at a place of a circuit, over these rows and in their version. It has taken nothing in.
    ///
    /// Refused unless `1 <= me <= members <= 15`.
    pub fn new(
        alloc: Global,
        place: Membership,
        setting: Setting,
        rows: R,
    ) -> Result<Station<R>, BadMember<R>>
        ensures some { IsOk result ↔ ((1 ≤ place.me) × (place.me ≤ place.members) × (place.members ≤ most_members)) }
        ensures circuit { IfOk result (λ s. s.speaker.core.circuit ≡ place.circuit) }
        ensures me { IfOk result (λ s. s.speaker.core.me ≡ place.me) }
        ensures members { IfOk result (λ s. s.speaker.core.members ≡ place.members) }
        ensures table { IfOk result (λ s. s.table ≡ setting.table) }
        ensures widths { IfOk result (λ s. s.widths ≡ setting.widths) }
        ensures rows { IfOk result (λ s. s.rows ≡ rows) }
        ensures stopped { IfOk result (λ s. s.stopped ≡ false) }
        ensures stands { IfOk result (λ s. StandsFor s.speaker.core []) }
        ensures wire { IfOk result (λ s. s.speaker.wire ≡ R.version rows) }
        ensures back { IfErr result (λ b. b ≡ record { table = setting.table; widths = setting.widths; rows = rows }) }
    {
        let Setting { table, widths } = setting;
        match Member::new(place.me) {
            Some(me) if place.me <= place.members && place.members <= Member::LAST => {
                let core = NodeCore::new(alloc, place.circuit, me, place.members);
                Ok(Station {
                    speaker: Speaker::new(core, rows.version()),
                    table,
                    widths,
                    rows,
                    stopped: false,
                    alloc,
                })
            }
            _ => Err(BadMember {
                table,
                widths,
                rows,
            }),
        }
    }

    /// Starts again, in the version of its rows: it forgets what it took in, and keeps its rows, its code table and
    /// its widths.
    pub fn restart(&mut self)
        ensures stands { StandsFor self.new.speaker.core [] }
        ensures wire { self.new.speaker.wire ≡ R.version self.old.rows }
        ensures fixed { IsFixed self.old self.new }
        ensures starts { self.new ≡ record self.old { speaker = self.new.speaker; stopped = false } }
    {
        self.follow_rows();
        self.speaker.clear();
        self.stopped = false;
    }

    /// Whether a step or an upgrade stopped it, and neither a restart nor an upgrade that was Ok came since.
    pub fn stopped(&self) -> bool
        ensures { result ≡ self.now.stopped }
    {
        self.stopped
    }

    /// Whether the number's entry was released since the station started; false while it is stopped.
    pub fn released(&self, number: Number) -> bool
        ensures stopped { self.now.stopped ≡ true → result ≡ false }
        ensures released { self.now.stopped ≡ false → OfItsMarks self.now.speaker.core (λ marks. result ≡ was_released number marks) }
    {
        !self.stopped && self.speaker.core().released(number)
    }

    /// The ballot of the number's open proposal; `None` while the station is stopped.
    pub fn open_ballot(&self, number: Number) -> Option<Ballot>
        ensures stopped { self.now.stopped ≡ true → result ≡ None }
        ensures opened { self.now.stopped ≡ false → (marks : List Mark) → StandsFor self.now.speaker.core marks → result ≡ open_ballot number marks }
    {
        if self.stopped {
            return None;
        }
        self.speaker.core().open_ballot(number)
    }

    /// The saved rows.
    pub fn rows(&self) -> &R
        ensures { result.now ≡ self.now.rows }
    {
        &self.rows
    }

    /// The saved rows, to be changed beside the steps, as to arm them. They are to be left at no lower version than they
    /// were; else the next step forgets what the station took in.
    pub fn rows_mut(&mut self) -> &mut R
        ensures* writes_back { sem 𝓛 (Lends (the_row R.row) R.row self.entry result (with_rows self.old)) }
        ensures value { result.now ≡ self.old.rows }
    {
        &mut self.rows
    }

    /// The saved rows, given up.
    pub fn into_rows(self) -> R
        ensures { result ≡ self.rows }
    {
        let Station {
            speaker: _,
            table: _,
            widths: _,
            rows,
            stopped: _,
            alloc: _,
        } = self;
        rows
    }
}
