//! A world: its members, and what went between them.

ghost use Rattle.std.specs.Prelude.{◌≡◌, ◌≤◌, ℕ, None, IfOk, IfSome, length, map, option_copied};
ghost use Rattle.protocol.specs.Seats.{sits};
ghost use Rattle.protocol.specs.Limits.{most_members};
ghost use Rattle.world.specs.Founding.{AreNew, AreNewlyMade, Founds, IsCount, IsNew};
ghost use Rattle.world.specs.Playing.{IsFreshOf};
ghost use Rattle.world.specs.Reach.{IsReached};
ghost use Rattle.world.specs.Worlds.{station_at};

use crate::laws;
use crate::logs::{OfferLog, ReleaseLog};
use ballots::Member;
use code_table::CodeTable;
use line_check::Setting;
use rows_saved::{Balky, Rows};
use station::{Datagram, Membership, Station};
use std::alloc::{AllocError, Global};
use widths::Widths;

/// All members of a circuit, each at the version of its rows, and every datagram, offer and release so far.
/// Clauses see these lists.
#[derive(Drop)]
pub struct World<R: Rows> {
    pub(crate) stations: Vec<Station<Balky<R>>>,
    pub(crate) sent: Vec<Datagram>,
    pub(crate) offers: Vec<OfferLog>,
    pub(crate) releases: Vec<ReleaseLog>,
    pub(crate) alloc: Global,
}

/// Why there is no world.
#[derive(Drop)]
pub enum NewWorldFault<R: Rows> {
    /// There are no members, or more than 15. The list is handed back.
    BadCount(Vec<(CodeTable, Widths, R)>),
    /// The stations could not be kept. The list is given up.
    OutOfMemory,
}

/// The number of members as one that a circuit has; `None` where there are none or more than 15.
pub fn member_count(members: usize) -> Option<u8>
    ensures some { IfSome result (λ count. (count ≡ members) × IsCount members) }
    ensures none { result ≡ None → ¬ IsCount members }
{
    match u8::try_from(members) {
        Ok(count) if 1 <= count && count <= Member::LAST => Some(count),
        _ => None,
    }
}

/// The station of a member, with rows that can be armed.
fn station_of<R: Rows>(
    alloc: Global,
    place: Membership,
    setting: Setting,
    rows: R,
) -> Station<Balky<R>>
    requires low { 1 ≤ place.me }
    requires high { place.me ≤ place.members }
    requires few { place.members ≤ most_members }
    ensures { IsNew R.version (sits place.circuit place.me place.members) (setting.table, setting.widths, rows) result }
{
    match Station::new(alloc, place, setting, Balky::new(rows)) {
        Ok(station) => station,
        Err(_) => unreachable!(),
    }
}

/// The stations of these members, numbered from 1 in order.
fn stations_of<R: Rows>(
    alloc: Global,
    circuit: u16,
    count: u8,
    members: Vec<(CodeTable, Widths, R)>,
) -> Result<Vec<Station<Balky<R>>>, AllocError>
    requires many { length members.items ≡ count }
    requires few { count ≤ most_members }
    ensures new { IfOk result (λ v. AreNew R.version circuit count members.items v.items) }
    ensures count { IfOk result (λ v. length v.items ≡ count) }
{
    let mut stations = Vec::with_capacity(alloc, members.len())?;
    let mut me = 0;
    for (table, widths, rows) in members {
        me += 1;
        let place = Membership {
            circuit,
            me,
            members: count,
        };
        let station = station_of(alloc, place, Setting { table, widths }, rows);
        stations.push(station)?;
    }
    Ok(stations)
}

impl<R: Rows> World<R> {
    /// The members of a circuit, each with its code table, its widths and its rows, numbered from 1 in the list's
    /// order. Nothing went between them.
    ///
    /// `BadCount` where the list has none or more than 15; `OutOfMemory`.
    pub fn new(
        alloc: Global,
        circuit: u16,
        members: Vec<(CodeTable, Widths, R)>,
    ) -> Result<World<R>, NewWorldFault<R>>
        ensures founds { Founds R.version circuit members.items result }
        // Over rows of which none is saved it stands for a fresh state of the circuit of these members, each at the version of its rows.
        ensures fresh { IfOk result (IsFreshOf R.Rows circuit members.items) }
        // Over rows that were just made for its members it is reached by no step at all: there is a circuit of them.
        ensures reached { IfOk result (λ v. AreNewlyMade R.Rows members.items → IsReached R.Rows v) }
    {
        laws::circuits_exist();
        let Some(count) = member_count(members.len()) else {
            return Err(NewWorldFault::BadCount(members));
        };
        let Ok(stations) = stations_of(alloc, circuit, count, members) else {
            return Err(NewWorldFault::OutOfMemory);
        };
        Ok(World {
            stations,
            sent: Vec::new(alloc),
            offers: Vec::new(alloc),
            releases: Vec::new(alloc),
            alloc,
        })
    }

    /// Every datagram that was sent, in order.
    pub fn sent(&self) -> &[Datagram]
        ensures { result.now ≡ self.now.sent.items }
    {
        self.sent.as_slice()
    }

    /// Each offer that was done, or that the store or want of memory ended in the station, in order.
    pub fn offers(&self) -> &[OfferLog]
        ensures { result.now ≡ self.now.offers.items }
    {
        self.offers.as_slice()
    }

    /// Every release, in order.
    pub fn releases(&self) -> &[ReleaseLog]
        ensures { result.now ≡ self.now.releases.items }
    {
        self.releases.as_slice()
    }

    /// The station of a member; `None` where there is no such member.
    pub fn station(&self, member: u8) -> Option<&Station<Balky<R>>>
        ensures { option_copied result ≡ station_at self.now member }
    {
        if member < 1 {
            return None;
        }
        self.stations.get(usize::from(member) - 1)
    }
}
