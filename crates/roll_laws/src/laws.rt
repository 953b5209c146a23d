//! Laws over the histories of any circuit. The functions do nothing: their contracts are the laws.
//! `D` is what a datagram's fault is, `G` what setting an entry gives, `F` its fault.

ghost use Rattle.roll_laws.specs.Votes.{VotesStay, WhoVotedHasAVote};
ghost use Rattle.roll_laws.specs.Rolls.{CountsNeverFall, EqualCountsAreSameVotes, RollsMissNothing, VotesAreToldFromThenOn};
ghost use Rattle.roll_laws.specs.Searches.{BegunWereAhead, ChoicesHaveNewVoters, LaterChoicesAreAbove, NothingIsReported, SearchesLeaveNews};

/// Who has a vote of a number has one in every later state. No refused save, stop, restart or upgrade takes it away. Who ever voted for a
/// number has a vote of it, maybe at a greater ballot.
pub fn votes_stay<D, G, F>()
    ensures stay { VotesStay D G F }
    ensures voted { WhoVotedHasAVote D G F }
{}

/// What a member has a vote of is among what it tells from then on. A majority has told its votes of a page, each member at a moment of its
/// own. Then every number of the page that was chosen before the first of them told is among what one of them told.
pub fn rolls_miss_nothing<D, G, F>()
    ensures later { VotesAreToldFromThenOn D G F }
    ensures chosen { RollsMissNothing D G F }
{}

/// The count of a page's numbers of which a member has a vote never falls. Where it is the same at two moments, so are the numbers. So the
/// count is the page's version.
pub fn a_count_is_a_version<D, G, F>()
    ensures rise { CountsNeverFall D G F }
    ensures same { EqualCountsAreSameVotes D G F }
{}

/// A step that begins a ballot finds it yet to be begun: its owner has promised nothing for the number, or less.
pub fn begun_ballots_were_ahead<D, G, F>()
    ensures { BegunWereAhead D G F }
{}

/// Where a station notes that a ballot found nothing, a majority reported at it that they have no vote of the number.
pub fn nothing_is_reported<D, G, F>()
    ensures { NothingIsReported D G F }
{}

/// A ballot found nothing: a majority reported at it that they have no vote. If its number is chosen all the same, before or later, some
/// member has a vote of it that had none when the ballot was begun. So it is none of those that were known then to have one.
pub fn a_choice_has_a_new_voter<D, G, F>()
    ensures reported { ChoicesHaveNewVoters D G F }
    ensures searched { SearchesLeaveNews D G F }
{}

/// Where a number is chosen later than a majority reported no vote at a ballot, a majority has votes of it at that ballot or above. Two
/// majorities share a member: so any majority has such a vote, even where the member that is new stays away.
pub fn later_choices_are_above<D, G, F>()
    ensures { LaterChoicesAreAbove D G F }
{}
