//! Of which members it was told that their rows are of layout 1, where those of this station are of layout 2.

ghost use Rattle.std.specs.Prelude.{◌≡◌, not};
ghost use Rattle.plant_log.specs.Older.{IsToldOf, none_told, was_told};

use ballots::Member;

/// A place for each member by its number, and one for 0, which no member has.
const PLACES: usize = 16;

/// Of which members it was told, by their numbers.
#[derive(Clone, Copy)]
pub(crate) struct Older {
    told: [bool; PLACES],
}

impl Older {
    /// Of none yet.
    pub(crate) fn new() -> Older
        ensures { result ≡ none_told }
    {
        Older {
            told: [false; PLACES],
        }
    }

    /// Whether it is told of a member: it was not told before. From then on it was.
    pub(crate) fn is_told(&mut self, member: Member) -> bool
        ensures told { result ≡ not (was_told self.old member) }
        ensures after { IsToldOf member self.old self.new }
    {
        let place = usize::from(member.get());
        let is_told = !self.told[place];
        self.told[place] = true;
        is_told
    }
}
