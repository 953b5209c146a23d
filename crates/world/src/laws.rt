//! The laws over every history; of these `agreement` is at the packets' own reading and at what tables and widths make of entries.
//! The functions do nothing but cite the laws that they rest on.

ghost use Rattle.world.specs.Taking.{TearsForMemory};
ghost use Rattle.world.specs.Laws.{OneEntry, VotesOffered, PromisesKept, ReportsGreatest, VotesBacked, HeardVoted, ToldVoted, RipeChosen, OneChosen, ReleasesChosen, CircuitsExist, StationsAgree, StationsAreNeverStuck, RunningStationsNeedNotRestart, BusyStationsNeedNotRestart, DeniedStationsNeedNotRestart, ChosenIsFoundByStations, HalfAnUpgradeIsNoDeadEndOfStations, EveryStationReleases};

use crate::slugs::Slugs;
use line_check::SetFault;
use packets::PacketFault;
use protocol_laws::laws;
use rows_saved::{MemoryRows, Rows};

/// All votes and Accepts of one number and ballot carry one entry.
pub fn one_entry()
    ensures { OneEntry }
{
    laws::one_entry::<PacketFault, Slugs, SetFault>();
}

/// Every voted entry was offered.
pub fn votes_are_offered()
    ensures { VotesOffered }
{
    laws::votes_are_offered::<PacketFault, Slugs, SetFault>();
}

/// After a Promise of a member at a ballot it takes no vote below that ballot, and the report was its greatest vote there.
pub fn promises_are_kept()
    ensures bind { PromisesKept }
    ensures reports { ReportsGreatest }
{
    laws::promises_are_kept::<PacketFault, Slugs, SetFault>();
}

/// Below each vote every ballot is backed by a majority.
pub fn votes_are_backed()
    ensures { VotesBacked }
{
    laws::votes_are_backed::<PacketFault, Slugs, SetFault>();
}

/// Each vote that was heard was taken, and so was each that was told, for the first time or again.
pub fn heard_is_voted()
    ensures heard { HeardVoted }
    ensures told { ToldVoted }
{
    laws::heard_is_voted::<PacketFault, Slugs, SetFault>();
}

/// What is ripe is chosen, and two chosen entries of one number are equal.
pub fn chosen_is_one()
    ensures ripe { RipeChosen }
    ensures one { OneChosen }
{
    laws::chosen_is_one::<PacketFault, Slugs, SetFault>();
}

/// Each entry that a station released is chosen for its number: at one ballot a majority voted for it.
pub fn releases_are_chosen()
    ensures { ReleasesChosen }
{
    laws::releases_are_chosen::<PacketFault, Slugs, SetFault>();
}

/// In a world over rows in memory, what is told of a step that the store tore is want of memory, or that its member's store was armed to
/// refuse the save or the upgrade.
pub fn rows_in_memory_want_memory()
    ensures { TearsForMemory ⟦<MemoryRows as Rows>⟧ }
{}

/// There is a circuit of stations, whatever their tables and widths: each tape sets in one way, and what spells a packet
/// in a version says that it is of it.
pub fn circuits_exist()
    ensures { CircuitsExist }
{
    line_check::laws::has_setting();
    packets::laws::reading_by_version();
}

/// Over every history no two releases of one number differ, each released entry was offered for its number and chosen
/// for it by a majority, and the slugs of a tape are those that its member's table and widths give it, or its fault is; a withdrawal has none.
pub fn agreement()
    ensures { StationsAgree }
{
    laws::agreement::<PacketFault, Slugs, SetFault>();
    laws::releases_are_chosen::<PacketFault, Slugs, SetFault>();
}

/// A circuit of stations is never stuck: where a majority can serve, any member of it that is offered an entry can come to release the number,
/// by steps of the majority alone, and so can every one of them; what is chosen any of them can come to release with nothing offered.
/// One that runs need not start again for it, whatever numbers are open with it.
pub fn circuit_is_never_stuck()
    ensures offered { StationsAreNeverStuck }
    ensures running { RunningStationsNeedNotRestart }
    ensures denied { DeniedStationsNeedNotRestart }
    ensures busy { BusyStationsNeedNotRestart }
    ensures chosen { ChosenIsFoundByStations }
    ensures upgrade { HalfAnUpgradeIsNoDeadEndOfStations }
    ensures every { EveryStationReleases }
{
    packets::laws::members_can_speak::<Slugs, SetFault>();
    laws::circuit_is_never_stuck::<PacketFault, Slugs, SetFault>();
}
