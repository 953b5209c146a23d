//! The station that is asked for.

use crate::place::StationPlace;
use ballots::Member;
use configuration::Config;

/// How a plant works, beside where its files lie.
#[derive(Clone, Copy, PartialEq, Eq)]
pub struct Habits {
    /// Whether texts may be handed over.
    pub text: bool,
    /// Whether files come into its offers only by being renamed.
    pub renamed: bool,
    /// Whether it catches up by itself.
    pub catches_up: bool,
}

impl Habits {
    /// Those of a plant of which nothing is said.
    pub const USUAL: Habits = Habits {
        text: true,
        renamed: false,
        catches_up: true,
    };

    /// Those of a configuration.
    pub fn of(config: &Config) -> Habits {
        let catches_up = config.catches_up;
        match &config.folders {
            Some(folders) => Habits {
                text: folders.text,
                renamed: folders.renamed,
                catches_up,
            },
            None => Habits {
                text: true,
                renamed: false,
                catches_up,
            },
        }
    }
}

/// A station that is to be: which it is, where all stations of its circuit listen, whether its wire is sealed, and how its plant works.
#[derive(Clone, Copy)]
pub struct NewStation<'a> {
    pub circuit: u16,
    pub member: Member,
    /// In order of members, from 1.
    pub places: &'a [StationPlace<'a>],
    pub sealed: bool,
    pub habits: Habits,
}
