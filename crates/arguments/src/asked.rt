//! What the command line asks for.

use crate::plan::{CreatePlan, InitPlan, Mismatch, Plan, RenewPlan, RunPlan};
use ballots::Member;
use clap::Error;
use inputs::{ScriptPaths, SettingPaths, StoryPaths, TapePaths};
use tape_drawing::DrawingForm;
use tape_frames::Version;

/// A command, with all that it is given.
#[derive(Clone, Copy)]
pub enum Asked<'a> {
    /// To answer requests as one acceptor of a circuit, which reads and replies in a version.
    Answer {
        circuit: u16,
        me: Member,
        wire: Version,
    },
    /// To set a tape, and where `listing` is set to list its frames first.
    Check {
        paths: TapePaths<'a>,
        listing: bool,
    },
    /// To draw a tape.
    Draw {
        paths: TapePaths<'a>,
        page: DrawingForm,
    },
    /// To chart a code table with widths.
    Chart {
        paths: SettingPaths<'a>,
        page: DrawingForm,
    },
    /// To punch the text at a path, with the ligatures that are named, as a tape for which this version has room.
    Punch {
        paths: StoryPaths<'a>,
        ligatures: Option<&'a str>,
        room: Version,
    },
    /// To spell the tape at a path, and where `plain` is set as a reader reads it.
    Spell {
        paths: StoryPaths<'a>,
        plain: bool,
    },
    /// To tell of each line how it fits, of a tape, or where `text` is set of a text.
    Fit {
        paths: TapePaths<'a>,
        text: bool,
    },
    /// To list the saved rows in the file at a path.
    Rows {
        path: &'a str,
    },
    /// To take the saved rows in the file at a path over to the second layout.
    Upgrade {
        path: &'a str,
    },
    /// To make the files of a plant, or of all plants of a circuit.
    Init(InitPlan<'a>),
    /// To make them for a new circuit after that of an old plant.
    Renew(RenewPlan<'a>),
    /// To make the row file of a station.
    Create(CreatePlan<'a>),
    /// To serve a station.
    Serve(Plan<'a>),
    /// To run a station until it is stopped.
    Run(RunPlan<'a>),
    /// To tell what is found about the configuration at a path.
    CheckConfig {
        config: &'a str,
    },
    /// To end the station of the configuration at a path.
    Stop {
        config: &'a str,
    },
    /// To tell how the station of the configuration at a path stands, by lines, or where `json` is set as one object of JSON.
    Status {
        config: &'a str,
        json: bool,
    },
    /// To tell by lines, again each second, how the station of the configuration at a path stands.
    Watch {
        config: &'a str,
    },
    /// To rehearse a circuit by a script.
    Rehearse {
        paths: ScriptPaths<'a>,
    },
    /// To make tapes of a reel.
    Import(ReelPlan<'a>),
    /// To survey how the frames of the tapes at some paths come in them.
    Survey {
        paths: SettingPaths<'a>,
        tapes: &'a [String],
    },
    /// To print which version of the program this is.
    Version,
}

/// What the command line of `import` asks for.
#[derive(Clone, Copy)]
pub struct ReelPlan<'a> {
    /// The path of the reel.
    pub path: &'a str,
    /// Which level each bit of the mask holds, and the mask, as they are written.
    pub levels: &'a str,
    pub mask: &'a str,
    /// Whether a clear bit is a hole.
    pub inverted: bool,
    /// How many blanks make a gap, at which the roll is cut, if it is.
    pub split: Option<u32>,
    /// Whether each tape is taken without its leader and its trailer.
    pub trims: bool,
    /// The path of the folder that the tapes are put into.
    pub folder: &'a str,
}

/// Why a line asks for no command.
#[derive(Drop)]
pub enum Unasked {
    /// What `clap` says of its words: the help or the version that they ask for, the first mistake among them, or that
    /// memory was refused.
    Clap(Error),
    /// What they ask for does not go together.
    Mismatched(Mismatch),
    /// They name no command.
    NoCommand,
}
