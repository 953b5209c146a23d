//! Laws over the definitions. The functions do nothing: their contracts are the laws.
//! Those over histories are for any circuit: `D` is what a datagram's fault is, `G` what setting an entry gives, `F` its fault.

ghost use Rattle.protocol.specs.Acceptor.{StepsAreOfTheWhole};
ghost use Rattle.protocol.specs.Agreement.{BallotsHaveOneEntry, ChosenIsOne, HeardIsVoted, HistoriesAgree, PromisesBind, ReleasesAreChosen, ReportsAreGreatest, RipeIsChosen, ToldIsVoted, VotesAreBacked, VotesAreOffered};
ghost use Rattle.protocol.specs.Fitting.{HistoriesFit, TurnsFit, VersionTwoReadsBoth};
ghost use Rattle.protocol.specs.Missing.{MissingIsExact};
ghost use Rattle.protocol.specs.NextDue.{NextDueIsLeastNumber};
ghost use Rattle.protocol.specs.Progress.{BusyNeedNotRestart, ChosenIsFound, CircuitIsNeverStuck, DeniedNeedNotRestart, EveryMemberReleases, HalfAnUpgradeIsNoDeadEnd, RunningNeedNotRestart};
ghost use Rattle.protocol.specs.Readings.{NextDueIsLeast};
ghost use Rattle.protocol.specs.Rehearsals.{AddresseeIsToldFirst, LowerIsDenied, MixedMembersRelease, NumberIsToldFirst, NumberIsWithdrawn, NumbersAreRefused, OneMemberReleases, PacketsAreRefused, ReadingLeavesArmed, RecallsAreRefused, SavedVoteIsReleased, SettingWantsMemory, StoppedIsToldFirst, StoreRefusesToo, ThreeMembersRelease, TornUpgrades, TwoProposersFight, UnsavedVoteIsLost, VersionIsToldFirst, VoteOutlivesUpgrades, VotesAreToldAgain, WithdrawalWantsVersionTwo};
ghost use Rattle.protocol.specs.Runs.{BallotsStandApart, BeginsAbovePromise, ClosedIsForgotten, FallsDueAbove, FirstAcceptStands, FirstOfTwoReleases, GivesUp, GreaterReportIsTaken, LastRoundIsBegun, LastRoundIsSpent, LeastMemberDecides, LowerIsNacked, NumbersStandApart, OfferedAfterGivingUp, OneFindsNothing, OneReleases, OwnVoteIsHeardAgain, PassedIsOvertaken, PromisesAreNotRecalled, ReleasedIsSettled, RepeatedVoteCountsOnce, SecondOfTwoReleases, ThirdTakesOver, VoteIsReported};
ghost use Rattle.protocol.specs.Table.{NumbersAreReleasedOnce, RecallsTellTheVote, TurnsAreAnAcceptors, TurnsAreOfTheTable};
ghost use Rattle.protocol.specs.Tearing.{StoreTearsTheUnrefused, TornAsItWasArmed, UpgradesKeepRows, ArmedStoresSaveNothing};

/// An acceptor that keeps one row answers as the whole list of its requests says.
pub fn acceptor_steps()
    ensures { StepsAreOfTheWhole }
{}

/// A station answers each Prepare and Accept as an acceptor with its row does: it leaves the row that the acceptor does, and what goes out is
/// the acceptor's report, the promise that stands in the way, or the entry that the acceptor has voted for.
pub fn turns_are_an_acceptors()
    ensures { TurnsAreAnAcceptors }
{}

/// Where a number was released since a station's start, no turn of it releases the number again.
pub fn numbers_are_released_once()
    ensures { NumbersAreReleasedOnce }
{}

/// A recall leaves the row as it is, and what it tells is the row's vote: to another member, or by the station to itself.
/// A row that has no vote has nothing to tell, whatever it has promised.
pub fn recalls_tell_the_vote()
    ensures { RecallsTellTheVote }
{}

/// What is due next is the least number that is due.
pub fn next_due_is_least()
    ensures due { NextDueIsLeast }
    ensures number { NextDueIsLeastNumber }
{}

/// The turn that is computed is one of the table.
pub fn turns_are_of_the_table()
    ensures { TurnsAreOfTheTable }
{}

/// A station of version 2 reads both versions.
pub fn version_two_reads_both<D, G, F>()
    ensures { VersionTwoReadsBoth D G F }
{}

/// A turn makes no entry up: where what it was given fits a version, what it saves, keeps in mind, sends and releases does.
pub fn turns_fit()
    ensures { TurnsFit }
{}

/// In every history, with upgrades and torn ones among its steps, each member holds only entries that its version can save and send.
pub fn histories_fit<D, G, F>()
    ensures { HistoriesFit D G F }
{}

/// Where a member's store tears a step, nothing refuses what the member was asked. A step that is torn as its store was armed leaves the row
/// that it was armed to leave: the row after where as saved, the row before where as unsaved.
pub fn what_the_store_tears<D, G, F>()
    ensures unrefused { StoreTearsTheUnrefused D G F }
    ensures armed { TornAsItWasArmed D G F }
{}

/// However an upgrade ends, each row stays. A member whose store is armed is not upgraded: its upgrade is torn, as it was armed or by its
/// own store, and it has stopped.
pub fn upgrades_keep_rows<D, G, F>()
    ensures { UpgradesKeepRows D G F }
{}

/// An armed store saves nothing: where a step is done and changed a row, the store of its member was not armed.
pub fn armed_stores_save_nothing<D, G, F>()
    ensures { ArmedStoresSaveNothing D G F }
{}

/// A circuit has a step exactly where `missing` names nothing: its member is one of the circuit and, of a delivery, the datagram was sent.
pub fn missing_is_exact()
    ensures { MissingIsExact }
{}

/// All votes and Accepts of one number and ballot carry one entry.
pub fn one_entry<D, G, F>()
    ensures { BallotsHaveOneEntry D G F }
{}

/// Every voted entry was offered.
pub fn votes_are_offered<D, G, F>()
    ensures { VotesAreOffered D G F }
{}

/// After a Promise of a member at a ballot it takes no vote below that ballot, and the report was its greatest vote there.
pub fn promises_are_kept<D, G, F>()
    ensures bind { PromisesBind D G F }
    ensures reports { ReportsAreGreatest D G F }
{}

/// Below each vote every ballot is backed by a majority.
pub fn votes_are_backed<D, G, F>()
    ensures { VotesAreBacked D G F }
{}

/// Each vote that was heard was taken, and so was each that was told, for the first time or again.
pub fn heard_is_voted<D, G, F>()
    ensures heard { HeardIsVoted D G F }
    ensures told { ToldIsVoted D G F }
{}

/// What is ripe is chosen, and two chosen entries of one number are equal.
pub fn chosen_is_one<D, G, F>()
    ensures ripe { RipeIsChosen D G F }
    ensures one { ChosenIsOne D G F }
{}

/// Each entry that a station released is chosen for its number: at one ballot a majority voted for it.
/// Since this holds of every history, it is so from the step that releases the entry.
pub fn releases_are_chosen<D, G, F>()
    ensures { ReleasesAreChosen D G F }
{}

/// Over every history no two releases of one number differ, each released entry was offered for its number,
/// and what is made of it is what its member's table and widths make of it.
pub fn agreement<D, G, F>()
    ensures { HistoriesAgree D G F }
{}

/// Worked examples of turns, of one and of two members.
pub fn turns_of_one_and_two()
    ensures one { OneReleases }
    ensures nothing { OneFindsNothing }
    ensures first { FirstOfTwoReleases }
    ensures second { SecondOfTwoReleases }
    ensures gives_up { GivesUp }
{}

/// Worked examples of turns, of three and of five members.
pub fn turns_of_more()
    ensures reported { VoteIsReported }
    ensures third { ThirdTakesOver }
    ensures greater { GreaterReportIsTaken }
    ensures least { LeastMemberDecides }
    ensures overtaken { PassedIsOvertaken }
    ensures nacked { LowerIsNacked }
    ensures due { FallsDueAbove }
    ensures above { BeginsAbovePromise }
    ensures spent { LastRoundIsSpent }
    ensures apart { BallotsStandApart }
    ensures once { RepeatedVoteCountsOnce }
    ensures stands { FirstAcceptStands }
    ensures settled { ReleasedIsSettled }
{}

/// Worked examples of what ends a proposal: a close, the last round, and what they leave of other numbers and of the proposal after.
pub fn turns_at_an_end()
    ensures forgotten { ClosedIsForgotten }
    ensures others { NumbersStandApart }
    ensures anew { OfferedAfterGivingUp }
    ensures last { LastRoundIsBegun }
{}

/// Worked examples of votes that are told again.
pub fn turns_that_tell_again()
    ensures promised { PromisesAreNotRecalled }
    ensures own { OwnVoteIsHeardAgain }
{}

/// Worked examples of refusals.
pub fn refusals<D, F>()
    ensures packets { PacketsAreRefused D F }
    ensures numbers { NumbersAreRefused D F }
    ensures recalls { RecallsAreRefused D F }
{}

/// Worked examples of calls that a station has two reasons to refuse.
pub fn refusals_in_order<D, G, F>()
    ensures stopped { StoppedIsToldFirst D G F }
    ensures addressee { AddresseeIsToldFirst D F }
    ensures number { NumberIsToldFirst D G F }
    ensures version { VersionIsToldFirst D G F }
{}

/// A circuit of one member releases what it is offered, at either version.
pub fn one_member_releases<D, G, F>()
    ensures { OneMemberReleases D G F }
{}

/// A vote that was saved as the store failed is released after the restart.
pub fn saved_vote_is_released<D, G, F>()
    ensures { SavedVoteIsReleased D G F }
{}

/// A vote that was not saved as the store failed is lost, want of memory leaves the saved row, and a restart forgets what was released.
pub fn unsaved_vote_is_lost<D, G, F>()
    ensures { UnsavedVoteIsLost D G F }
{}

/// Torn steps that are not as their store was armed: memory that is refused while an entry is set, a store that fails as it is read and stays armed,
/// and one that refuses the save that an armed store passes on.
pub fn torn_otherwise<D, G, F>()
    ensures setting { SettingWantsMemory D G F }
    ensures reading { ReadingLeavesArmed D G F }
    ensures too { StoreRefusesToo D G F }
{}

/// Two proposers of three: the lower one is denied and begins anew above; the later one takes over what may have been chosen.
pub fn two_proposers<D, G, F>()
    ensures denied { LowerIsDenied D G F }
    ensures fight { TwoProposersFight D G F }
{}

/// Votes that got lost are told again: by whom they are missed, and by a member that started again, their entry is released.
pub fn votes_are_told_again<D, G, F>()
    ensures { VotesAreToldAgain D G F }
{}

/// Three members at one version release what one of them is offered.
pub fn three_members_release<D, G, F>()
    ensures { ThreeMembersRelease D G F }
{}

/// Three members at version 2 withdraw a number as they release a tape. At version 1 a withdrawal is refused.
pub fn number_is_withdrawn<D, G, F>()
    ensures withdrawn { NumberIsWithdrawn D G F }
    ensures wants { WithdrawalWantsVersionTwo D G F }
{}

/// Of three members two at version 2 agree, while the third, at version 1, can't read what they send.
pub fn mixed_members_release<D, G, F>()
    ensures { MixedMembersRelease D G F }
{}

/// A torn upgrade leaves a station at version 1, or at version 2.
pub fn torn_upgrades<D, G, F>()
    ensures { TornUpgrades D G F }
{}

/// A vote that was saved at version 1 is found after its member went over to version 2, and its entry is released.
pub fn vote_outlives_upgrades<D, G, F>()
    ensures { VoteOutlivesUpgrades D G F }
{}

/// A circuit is never stuck: from each state that a history reaches, where the members of a majority can serve, any of them that is offered
/// an entry for a number can come to release the number, by steps of theirs alone; what it releases is the entry that was chosen, where one was.
/// Nobody who runs has to start again for it, where the member that is asked has their highest promise for the number, and the number is free;
/// nor where others have higher ones, and no number is open with it: it is denied, and begins anew above.
/// Nor whatever numbers are open with it: the lower ones fall due first, each until it is given up, and so does the number, where it is open.
/// What is chosen any of them can come to release with nothing offered. Where some of them are at version 1, they can be upgraded first.
/// And every one of them can come to release the number, where each has a round left for every member of the circuit, and one more.
pub fn circuit_is_never_stuck<D, G, F>()
    ensures offered { CircuitIsNeverStuck D G F }
    ensures running { RunningNeedNotRestart D G F }
    ensures denied { DeniedNeedNotRestart D G F }
    ensures busy { BusyNeedNotRestart D G F }
    ensures chosen { ChosenIsFound D G F }
    ensures upgrade { HalfAnUpgradeIsNoDeadEnd D G F }
    ensures every { EveryMemberReleases D G F }
{}
