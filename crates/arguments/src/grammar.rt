//! What `clap` is told: the commands, their arguments, and the help of each.

use ballots::Member;
use clap::builder::ValueParser;
use clap::{Arg, ArgAction, Command};
use std::alloc::{AllocError, Global};

/// The version of the program.
pub const VERSION: &str = "0.3.0";

/// The versions of packets and the layouts of saved rows, as `--wire` and `--layout` name them.
const VERSIONS: &[&str] = &["1", "2"];

/// How many frames a tape may have in layouts 1 and 2, as `--most` names them.
const MOSTS: &[&str] = &["4096", "16384"];

/// What a value has to be.
#[derive(Clone, Copy)]
enum Value {
    Text,
    Circuit,
    Member,
    Version,
    Most,
    Turns,
    Number,
    Blanks,
}

/// What is so where an option is left out.
#[derive(Clone, Copy)]
enum Absence<'a> {
    /// It can't be left out.
    Refused,
    /// It has no value.
    Empty,
    /// It has this value.
    Default(&'a str),
}

/// An option that takes a value.
#[derive(Clone, Copy)]
struct Choice<'a> {
    /// What the help calls its value.
    shown: &'a str,
    value: Value,
    absence: Absence<'a>,
    /// The argument without which it is refused.
    goes_with: Option<&'a str>,
}

/// How an argument stands on the line.
#[derive(Clone, Copy)]
enum ArgumentShape<'a> {
    /// A value at its place, which can't be left out.
    Word(Value),
    /// Texts at the end of the line, one or more.
    Words,
    /// Its name alone.
    Flag,
    /// Its name alone, and not beside that of another one.
    Rival(&'a str),
    /// Its name with a value behind it.
    Choice(Choice<'a>),
}

/// An argument, with its help.
#[derive(Clone, Copy)]
struct ArgumentForm<'a> {
    name: &'a str,
    shape: ArgumentShape<'a>,
    help: &'a str,
}

/// A command, with its help.
#[derive(Clone, Copy)]
struct CommandForm<'a> {
    name: &'a str,
    about: &'a str,
    example: &'a str,
    given: &'a [ArgumentForm<'a>],
}

const TABLE: ArgumentForm = ArgumentForm {
    name: "TABLE",
    shape: ArgumentShape::Word(Value::Text),
    help: "The code table, as examples/codes.toml",
};

const WIDTHS: ArgumentForm = ArgumentForm {
    name: "WIDTHS",
    shape: ArgumentShape::Word(Value::Text),
    help: "The width file, as examples/widths.toml",
};

const TAPE: ArgumentForm = ArgumentForm {
    name: "TAPE",
    shape: ArgumentShape::Word(Value::Text),
    help: "The tape, one frame per byte; - is standard input",
};

const DB: ArgumentForm = ArgumentForm {
    name: "DB",
    shape: ArgumentShape::Word(Value::Text),
    help: "The station's database, as its configuration names it",
};

const CREATE: ArgumentForm = ArgumentForm {
    name: "create",
    shape: ArgumentShape::Flag,
    help: "Make the row file: for the first start of a station, and never again",
};

const ANSWER_EXAMPLE: &str = "\
Example: member 1 asks member 2 of circuit 7 to promise ballot 1.1 for number 12, and gets its promise.

  $ echo 544e0101000701020000000c0000000101 | circuitd answer 7 2
  544e0102000702010000000c000000010100";

const ANSWER: CommandForm = CommandForm {
    name: "answer",
    about: "Answers requests as one acceptor: a datagram in hex per line in, its reply per line out",
    example: ANSWER_EXAMPLE,
    given: &[
        ArgumentForm {
            name: "CIRCUIT",
            shape: ArgumentShape::Word(Value::Circuit),
            help: "The circuit's number, 0 to 65535",
        },
        ArgumentForm {
            name: "MEMBER",
            shape: ArgumentShape::Word(Value::Member),
            help: "The member that answers, 1 to 15",
        },
        ArgumentForm {
            name: "wire",
            shape: ArgumentShape::Choice(Choice {
                shown: "V",
                value: Value::Version,
                absence: Absence::Default("1"),
                goes_with: None,
            }),
            help: "The version of packets that it replies in; at version 2 it reads both, and a number may be withdrawn",
        },
    ],
};

const CHECK_EXAMPLE: &str = "\
Example: what the linecaster will cast of a tape, a line per slug: its number, J for justified,
the blank left and right, and the matrices with the width of each spaceband.

  $ circuitd check codes.toml widths.toml flood.tape
  0001 J 0 0 a b _4 a _4 b

A tape that does not set is told with its place, counted in frames from 0:

  $ circuitd check codes.toml widths.toml overset.tape
  fault: overset 1 at 7 line 1";

const CHECK: CommandForm = CommandForm {
    name: "check",
    about: "Sets a tape by a code table and a width file, and writes its galley: one line per slug",
    example: CHECK_EXAMPLE,
    given: &[
        TABLE,
        WIDTHS,
        TAPE,
        ArgumentForm {
            name: "holes",
            shape: ArgumentShape::Flag,
            help: "First write one line per frame: its holes, and the frame in decimal",
        },
    ],
};

const DRAW_EXAMPLE: &str = "\
Example: the holes of a tape and its slugs to scale, in a file that a browser shows:

  $ circuitd draw codes.toml widths.toml flood.tape > flood.svg

A tape that does not set is drawn whole, each line with its fault, and the first fault is told:

  $ circuitd draw codes.toml widths.toml overset.tape > overset.svg
  fault: overset 1 at 7 line 1";

const DRAW: CommandForm = CommandForm {
    name: "draw",
    about: "Draws a tape as an SVG document: its holes, what each frame means, and its slugs to scale",
    example: DRAW_EXAMPLE,
    given: &[
        TABLE,
        WIDTHS,
        TAPE,
        ArgumentForm {
            name: "html",
            shape: ArgumentShape::Flag,
            help: "Write a page in HTML, with a heading and each line as a drawing of its own",
        },
    ],
};

const CHART_EXAMPLE: &str = "\
Example: what all 64 combinations of a code table mean, and how wide that is, in a file that a browser shows:

  $ circuitd chart codes.toml widths.toml > chart.svg";

const CHART: CommandForm = CommandForm {
    name: "chart",
    about: "Draws a code table as a chart of all 64 combinations: holes, both meanings and widths",
    example: CHART_EXAMPLE,
    given: &[
        TABLE,
        WIDTHS,
        ArgumentForm {
            name: "html",
            shape: ArgumentShape::Flag,
            help: "Write a page in HTML, with each combination as a drawing of its own",
        },
    ],
};

const PUNCH_EXAMPLE: &str = "\
Example: a line of text, and what the linecaster will cast of its tape. The text is written as docs/NOTATION.md says:
a letter is the matrix of that name, a blank is a spaceband, and a line end is the elevate code.

  $ echo 'a b a b' | circuitd punch codes.toml - > line.tape
  $ circuitd check codes.toml widths.toml line.tape
  0001 J 0 0 a _3 b _3 a _2 b

What the table has no frame for is told with its place:

  $ echo 'a?' | circuitd punch codes.toml -
  text: no code for \"?\" at line 1 column 2";

const PUNCH: CommandForm = CommandForm {
    name: "punch",
    about: "Punches a text by a code table: writes its tape, one frame per byte",
    example: PUNCH_EXAMPLE,
    given: &[
        TABLE,
        ArgumentForm {
            name: "TEXT",
            shape: ArgumentShape::Word(Value::Text),
            help: "The text, as examples/wire/river.txt; - is standard input",
        },
        ArgumentForm {
            name: "ligatures",
            shape: ArgumentShape::Choice(Choice {
                shown: "NAMES",
                value: Value::Text,
                absence: Absence::Empty,
                goes_with: None,
            }),
            help: "Letters that are one matrix where they stand outside braces, as fi,fl,ffi: the longest first",
        },
        ArgumentForm {
            name: "most",
            shape: ArgumentShape::Choice(Choice {
                shown: "N",
                value: Value::Most,
                absence: Absence::Default("16384"),
                goes_with: None,
            }),
            help: "How many frames the tape may have: 4096 for a circuit of layout 1",
        },
    ],
};

const SPELL_EXAMPLE: &str = "\
Example: the text of a tape, which is punched as that tape again, frame for frame:

  $ circuitd spell codes.toml harvest.tape
  B{@quadcenter}
  A{@quadright}";

const SPELL: CommandForm = CommandForm {
    name: "spell",
    about: "Spells a tape by a code table: writes the text of which it is punched",
    example: SPELL_EXAMPLE,
    given: &[
        TABLE,
        TAPE,
        ArgumentForm {
            name: "plain",
            shape: ArgumentShape::Flag,
            help: "Write what a reader reads: letters, blanks and line ends alone",
        },
    ],
};

const FIT_EXAMPLE: &str = "\
Example: how each line fits, whatever is wrong with the others: its slug, or why it has none, and its least and
greatest width.

  $ circuitd fit codes.toml widths.toml overset.tape
  line  slug  verdict        least .. most of 30
     1        overset 1         31 .. 39   ab ab a
  1 of 1 lines do not set";

const FIT: CommandForm = CommandForm {
    name: "fit",
    about: "Tells of each line of a tape how it fits, whatever is wrong with the others",
    example: FIT_EXAMPLE,
    given: &[
        TABLE,
        WIDTHS,
        TAPE,
        ArgumentForm {
            name: "text",
            shape: ArgumentShape::Flag,
            help: "The third file is a text, which is punched first",
        },
    ],
};

const ROWS_EXAMPLE: &str =
    "Example:\n  $ circuitd rows station2.db\n  station 2 of 3 circuit 7\n  3 1.1 - -\n  12 1.3 1.1 010204";

const ROWS: CommandForm = CommandForm {
    name: "rows",
    about: "Lists what a station saved: per number its promise, its vote and the frames of that, in hex",
    example: ROWS_EXAMPLE,
    given: &[DB],
};

const UPGRADE_EXAMPLE: &str = "\
Example: a station goes over between two runs, and all that it saved stays:

  $ circuitd upgrade station2.db
  layout 2";

const UPGRADE: CommandForm = CommandForm {
    name: "upgrade",
    about: "Takes what a station saved over to layout 2: it speaks version 2 then, and a number may be withdrawn",
    example: UPGRADE_EXAMPLE,
    given: &[DB],
};

const INIT_EXAMPLE: &str = "\
Example: the files of three plants on this machine, with one key, each in a folder of its own:

  $ circuitd init plants --circuit 7 --all --new-key --table codes.toml --widths widths.toml \\
      --stations 127.0.0.1:7001,127.0.0.1:7002,127.0.0.1:7003
  made plants
  made plants/plant1
  made plants/plant1/offers

A line tells of each file and folder. What is there already is left as it is, and told as `left`. Then, in the folder
of each plant on its own machine, run `circuitd check-config station.toml`, and once `circuitd create station.toml`.

A new circuit after a lost station: `--from` keeps the addresses, the table, the widths and the key of an old plant:

  $ circuitd init alton8 --circuit 8 --from alton";

const INIT: CommandForm = CommandForm {
    name: "init",
    about: "Makes the files of a plant, or of all plants of a circuit, but for the row file; none that is there is changed",
    example: INIT_EXAMPLE,
    given: &[
        ArgumentForm {
            name: "FOLDER",
            shape: ArgumentShape::Word(Value::Text),
            help: "The plant's folder, which is made; with --all the folder in which plant1, plant2, .. are made",
        },
        ArgumentForm {
            name: "circuit",
            shape: ArgumentShape::Choice(Choice {
                shown: "N",
                value: Value::Circuit,
                absence: Absence::Refused,
                goes_with: None,
            }),
            help: "The circuit's number, 0 to 65535: one that was never used",
        },
        ArgumentForm {
            name: "member",
            shape: ArgumentShape::Choice(Choice {
                shown: "M",
                value: Value::Member,
                absence: Absence::Empty,
                goes_with: None,
            }),
            help: "Which of the stations this one is, 1 to 15",
        },
        ArgumentForm {
            name: "all",
            shape: ArgumentShape::Rival("member"),
            help: "Make the plants of all members, to be carried to their machines",
        },
        ArgumentForm {
            name: "stations",
            shape: ArgumentShape::Choice(Choice {
                shown: "LIST",
                value: Value::Text,
                absence: Absence::Empty,
                goes_with: None,
            }),
            help: "Where all stations listen, in order of members, as a:7001,b:7001,10.0.7.3:7001",
        },
        ArgumentForm {
            name: "table",
            shape: ArgumentShape::Choice(Choice {
                shown: "FILE",
                value: Value::Text,
                absence: Absence::Empty,
                goes_with: None,
            }),
            help: "The code table, of which a copy is made",
        },
        ArgumentForm {
            name: "widths",
            shape: ArgumentShape::Choice(Choice {
                shown: "FILE",
                value: Value::Text,
                absence: Absence::Empty,
                goes_with: None,
            }),
            help: "The width file, of which a copy is made",
        },
        ArgumentForm {
            name: "key",
            shape: ArgumentShape::Choice(Choice {
                shown: "FILE",
                value: Value::Text,
                absence: Absence::Empty,
                goes_with: None,
            }),
            help: "The key of the circuit, of which a copy is made",
        },
        ArgumentForm {
            name: "new-key",
            shape: ArgumentShape::Rival("key"),
            help: "Make a key, unless one of these plants has one already",
        },
        ArgumentForm {
            name: "from",
            shape: ArgumentShape::Choice(Choice {
                shown: "OLD",
                value: Value::Text,
                absence: Absence::Empty,
                goes_with: None,
            }),
            help: "The folder of a plant of another circuit: what is not named here is as there",
        },
    ],
};

const CREATION_EXAMPLE: &str = "\
Example: the row file of a station that never ran, for a circuit that is new:

  $ circuitd create station2.toml
  made station2.db: station 2 of 3 circuit 7 layout 2

Where a file is there already, or its log, nothing is made: a station that starts over an empty row file has
forgotten what it promised.";

const CREATION: CommandForm = CommandForm {
    name: "create",
    about: "Makes the row file of a station that never ran: what it promises and votes for is saved there",
    example: CREATION_EXAMPLE,
    given: &[
        ArgumentForm {
            name: "CONFIG",
            shape: ArgumentShape::Word(Value::Text),
            help: "The station's configuration: its circuit, its member, its files and the addresses of all stations",
        },
        ArgumentForm {
            name: "layout",
            shape: ArgumentShape::Choice(Choice {
                shown: "L",
                value: Value::Version,
                absence: Absence::Default("2"),
                goes_with: None,
            }),
            help: "The layout of the row file: in layout 2 a number may be withdrawn; 1 for a circuit with stations of layout 1",
        },
    ],
};

const SERVE_EXAMPLE: &str = "\
Example: the first plant of a circuit makes its row file and puts a story on the wire as number 12.
It serves for about a minute, and prints the story when the circuit has agreed on it:

  $ circuitd serve station1.toml --turns 1200 --create --number 12 --tape story.tape
  release 12 01020301030204
  0001 J 0 0 a b _4 a _4 b

Every other plant of the circuit runs `circuitd serve` with its own configuration at the same time.
Later a plant that missed the story asks the others for it:

  $ circuitd serve station3.toml --turns 1200 --seek 12";

const SERVE: CommandForm = CommandForm {
    name: "serve",
    about: "Runs this plant's station on the wire, and prints each story that the circuit has agreed on",
    example: SERVE_EXAMPLE,
    given: &[
        ArgumentForm {
            name: "CONFIG",
            shape: ArgumentShape::Word(Value::Text),
            help: "The station's configuration: its circuit, its member, its files and the addresses of all stations",
        },
        ArgumentForm {
            name: "turns",
            shape: ArgumentShape::Choice(Choice {
                shown: "T",
                value: Value::Turns,
                absence: Absence::Refused,
                goes_with: None,
            }),
            help: "How many turns to serve, 1 to 1000000: a turn takes in one datagram, or waits for 50 milliseconds",
        },
        CREATE,
        ArgumentForm {
            name: "layout",
            shape: ArgumentShape::Choice(Choice {
                shown: "L",
                value: Value::Version,
                absence: Absence::Empty,
                goes_with: None,
            }),
            help: "The layout of the row file that is made, 1 where none is named: in layout 2 a number may be withdrawn; goes with --create",
        },
        ArgumentForm {
            name: "number",
            shape: ArgumentShape::Choice(Choice {
                shown: "N",
                value: Value::Number,
                absence: Absence::Empty,
                goes_with: None,
            }),
            help: "First offer a story under this number, 1 to 999999; goes with --tape",
        },
        ArgumentForm {
            name: "tape",
            shape: ArgumentShape::Choice(Choice {
                shown: "FILE",
                value: Value::Text,
                absence: Absence::Empty,
                goes_with: None,
            }),
            help: "The tape that is offered, one frame per byte; goes with --number",
        },
        ArgumentForm {
            name: "withdraw",
            shape: ArgumentShape::Choice(Choice {
                shown: "N",
                value: Value::Number,
                absence: Absence::Empty,
                goes_with: None,
            }),
            help: "Then withdraw this number, 1 to 999999, so that no story goes out under it; refused by rows in layout 1",
        },
        ArgumentForm {
            name: "seek",
            shape: ArgumentShape::Choice(Choice {
                shown: "N",
                value: Value::Number,
                absence: Absence::Empty,
                goes_with: None,
            }),
            help: "Then ask the circuit for the story of this number",
        },
    ],
};

const RUN_EXAMPLE: &str = "\
Example: the first start of a station, and then each later one:

  $ circuitd run station1.toml --create
  $ circuitd run station1.toml

Where the configuration names folders, the file `12.tape` among the offers is offered under number 12, and
`12.text` as the tape that `punch` makes of it. `14.withdraw` withdraws number 14, and `13.seek` asks for
number 13. What the circuit has agreed on is put among the releases: `12.tape` and `12.galley`, or
`14.void`. The file `stop` among the offers ends the station, and is taken away at its next start.";

const RUN: CommandForm = CommandForm {
    name: "run",
    about: "Runs this plant's station until it is stopped: stories are offered and released as files",
    example: RUN_EXAMPLE,
    given: &[
        ArgumentForm {
            name: "CONFIG",
            shape: ArgumentShape::Word(Value::Text),
            help: "The station's configuration: its circuit, its member, its files and folders, and the addresses of all stations",
        },
        CREATE,
        ArgumentForm {
            name: "layout",
            shape: ArgumentShape::Choice(Choice {
                shown: "L",
                value: Value::Version,
                absence: Absence::Default("2"),
                goes_with: Some("create"),
            }),
            help: "The layout of the row file that is made: in layout 2 a number may be withdrawn; 1 for a circuit with stations of layout 1; goes with --create",
        },
        ArgumentForm {
            name: "quiet",
            shape: ArgumentShape::Rival("verbose"),
            help: "Tell faults alone, and not what becomes of each number",
        },
        ArgumentForm {
            name: "verbose",
            shape: ArgumentShape::Rival("quiet"),
            help: "Tell each ballot of each number, and each file that was sent, too",
        },
        ArgumentForm {
            name: "times",
            shape: ArgumentShape::Flag,
            help: "Put the moment before each line, in Coordinated Universal Time",
        },
    ],
};

const CONFIG_CHECK_EXAMPLE: &str = "\
Example: what is found about the configuration of a plant, before its row file is made:

  $ circuitd check-config station1.toml
  station 1 at 127.0.0.1:7001 is this one, on this host
  station 2 at 127.0.0.1:7002 is on this host too
  station 3 at 127.0.0.1:7003 is on this host too
  there is no station1.db yet: circuitd create makes it, for a station that never ran";

const CONFIG_CHECK: CommandForm = CommandForm {
    name: "check-config",
    about: "Tells of a configuration what is at fault and what is odd, and which addresses are this host's; nothing is touched",
    example: CONFIG_CHECK_EXAMPLE,
    given: &[ArgumentForm {
        name: "CONFIG",
        shape: ArgumentShape::Word(Value::Text),
        help: "The station's configuration: its circuit, its member, its files and folders, and the addresses of all stations",
    }],
};

const STOP_EXAMPLE: &str = "\
Example: a station that `circuitd run station1.toml` runs ends, and its row file is closed:

  $ circuitd stop station1.toml

The file `stop` is laid among the offers that the configuration names. Where the station has not ended within
30 seconds, that is told.";

const STOP: CommandForm = CommandForm {
    name: "stop",
    about: "Ends the station that runs with this configuration, and waits until it has ended",
    example: STOP_EXAMPLE,
    given: &[ArgumentForm {
        name: "CONFIG",
        shape: ArgumentShape::Word(Value::Text),
        help: "The station's configuration, which names its folder of offers",
    }],
};

const STATUS_EXAMPLE: &str = "\
Example: how a station stands whose configuration has `status = \"status.txt\"` among its folders:

  $ circuitd status station2.toml
  station 2 of 3 circuit 7 layout 2 since 2026-11-26T20:44:01Z
  member 1 heard at 20:51:07Z
  member 3 not heard since the start
  released 38, the greatest 57
  under way 13 seek ballot 4.2, 61 offer ballot 1.2
  missing 42 44-56 since 20:50:52Z
  offers 3 waiting, 1 lost, 0 refused; releases 0 waiting to be written
  written 2026-11-26T20:51:10Z, form 1
  well

It exits with 0 where the station is well, with 1 where it is not, and with 3 where nothing can be told.";

const STATUS: CommandForm = CommandForm {
    name: "status",
    about: "Tells how this plant's station stands, as its status file has it, and whether it is well",
    example: STATUS_EXAMPLE,
    given: &[
        ArgumentForm {
            name: "CONFIG",
            shape: ArgumentShape::Word(Value::Text),
            help: "The station's configuration, which names its status file",
        },
        ArgumentForm {
            name: "json",
            shape: ArgumentShape::Rival("watch"),
            help: "Print one object of JSON in place of lines",
        },
        ArgumentForm {
            name: "watch",
            shape: ArgumentShape::Rival("json"),
            help: "Print it again each second, on a terminal, until the file is gone or the command is interrupted",
        },
    ],
};

const REHEARSE_EXAMPLE: &str = "\
Example: the first of three members offers a story, and its first request comes to member 2.

  members 3
  offer 1 12 01020301030204
  deliver 1

The lines of this script print what each member did and what it sent:

  $ circuitd rehearse codes.toml widths.toml story.script
  1 began 1.1
   #1 prepare 1>2 12 1.1
   #2 prepare 1>3 12 1.1
  2 promised 1.1
   #3 promise 2>1 12 1.1";

const REHEARSE: CommandForm = CommandForm {
    name: "rehearse",
    about: "Rehearses a whole circuit by a script: who offers, what is delivered when, who starts again",
    example: REHEARSE_EXAMPLE,
    given: &[
        ArgumentForm {
            name: "TABLE",
            shape: ArgumentShape::Word(Value::Text),
            help: "The code table of all members, as examples/codes.toml",
        },
        ArgumentForm {
            name: "WIDTHS",
            shape: ArgumentShape::Word(Value::Text),
            help: "The width file of all members, as examples/widths.toml",
        },
        ArgumentForm {
            name: "SCRIPT",
            shape: ArgumentShape::Word(Value::Text),
            help: "The script, as examples/story.script",
        },
    ],
};

const IMPORT_EXAMPLE: &str = "\
Example: a roll from a reader that has level 0 in its highest bit and sets the two lowest, cut where two blanks stand, without leaders:

  $ mkdir tapes
  $ printf '\\003\\203\\103\\003\\003\\377\\203' > roll.bin
  $ circuitd import roll.bin --to tapes --mask 0xfc --levels 012345 --split 2 --trim
  001.tape frames 2 from 1
  002.tape frames 1 from 6
  tapes: 2, frames in the reel: 7";

const IMPORT: CommandForm = CommandForm {
    name: "import",
    about: "Makes tapes of a reel from a reader of real tape: 001.tape, 002.tape, .. in a folder",
    example: IMPORT_EXAMPLE,
    given: &[
        ArgumentForm {
            name: "REEL",
            shape: ArgumentShape::Word(Value::Text),
            help: "What the reader gave, one frame per byte; - is standard input",
        },
        ArgumentForm {
            name: "to",
            shape: ArgumentShape::Choice(Choice {
                shown: "DIR",
                value: Value::Text,
                absence: Absence::Refused,
                goes_with: None,
            }),
            help: "The folder that the tapes are put into, over no file that is there",
        },
        ArgumentForm {
            name: "mask",
            shape: ArgumentShape::Choice(Choice {
                shown: "BYTE",
                value: Value::Text,
                absence: Absence::Default("0x3f"),
                goes_with: None,
            }),
            help: "Which six bits of a byte hold levels; the others are passed over",
        },
        ArgumentForm {
            name: "levels",
            shape: ArgumentShape::Choice(Choice {
                shown: "DIGITS",
                value: Value::Text,
                absence: Absence::Default("543210"),
                goes_with: None,
            }),
            help: "Which level each bit of the mask holds, from its highest bit on",
        },
        ArgumentForm {
            name: "invert",
            shape: ArgumentShape::Flag,
            help: "A clear bit is a hole, and not a set one",
        },
        ArgumentForm {
            name: "split",
            shape: ArgumentShape::Choice(Choice {
                shown: "N",
                value: Value::Blanks,
                absence: Absence::Empty,
                goes_with: None,
            }),
            help: "Cut the roll where so many blanks stand one behind the other, 1 to 1000000",
        },
        ArgumentForm {
            name: "trim",
            shape: ArgumentShape::Flag,
            help: "Take each tape without the blanks and rub-outs at its beginning and its end",
        },
    ],
};

const SURVEY_EXAMPLE: &str = "\
Example: how the first frames come in a tape, and what stands around them.

  $ circuitd survey codes.toml widths.toml flood.tape | head -4
  frame  holes     times  lacks    unshift       shift
      0  ......        0           @ignore       @ignore
      1  o.....        2           a             A
         flood.tape 0  [a]b a b{@elevate}";

const SURVEY: CommandForm = CommandForm {
    name: "survey",
    about: "Tells of each of the 64 frames how often it comes in tapes, what it means or lacks, and where it comes first",
    example: SURVEY_EXAMPLE,
    given: &[
        TABLE,
        WIDTHS,
        ArgumentForm {
            name: "TAPE",
            shape: ArgumentShape::Words,
            help: "The tapes, one frame per byte",
        },
    ],
};

/// The commands over tapes, in the order in which the help lists them.
const TAPE_FORMS: &[CommandForm] = &[ANSWER, CHECK, DRAW, CHART, PUNCH, SPELL, FIT];

/// Those over the files of a station, behind them.
const FILE_FORMS: &[CommandForm] = &[ROWS, UPGRADE, INIT, CREATION, CONFIG_CHECK];

/// Those over stations, behind them.
const STATION_FORMS: &[CommandForm] = &[SERVE, RUN, STOP, STATUS, REHEARSE];

/// Those over reels of real tape, behind them.
const REEL_FORMS: &[CommandForm] = &[IMPORT, SURVEY];

/// The commands over tapes. This function alone names the table, since each that names it is proved with all of its texts; all
/// commands in one table are more than the prover takes at once.
fn tape_forms() -> &'static [CommandForm<'static>] {
    TAPE_FORMS
}

/// Those over the files of a station, the same way.
fn file_forms() -> &'static [CommandForm<'static>] {
    FILE_FORMS
}

/// Those over stations, the same way.
fn station_forms() -> &'static [CommandForm<'static>] {
    STATION_FORMS
}

/// Those over reels, the same way.
fn reel_forms() -> &'static [CommandForm<'static>] {
    REEL_FORMS
}

/// How `clap` tests a value.
fn parser_of<'a>(value: Value) -> ValueParser<'a> {
    match value {
        Value::Text => ValueParser::string(),
        Value::Circuit => clap::value_parser!(u16),
        Value::Member => clap::value_parser!(u8).range(1..=i64::from(Member::LAST)),
        Value::Version => ValueParser::Names(VERSIONS),
        Value::Most => ValueParser::Names(MOSTS),
        Value::Turns => clap::value_parser!(u32).range(1..=1_000_000),
        Value::Number => clap::value_parser!(u32),
        Value::Blanks => clap::value_parser!(u32).range(1..=1_000_000),
    }
}

fn with_absence<'a>(arg: Arg<'a>, absence: Absence<'a>) -> Arg<'a> {
    let arg = arg.required(matches!(absence, Absence::Refused));
    match absence {
        Absence::Default(value) => arg.default_value(value),
        _ => arg,
    }
}

/// The option of this name, as far as its help.
fn choice_of<'a>(arg: Arg<'a>, name: &'a str, choice: Choice<'a>) -> Result<Arg<'a>, AllocError> {
    let arg = arg
        .long(name)
        .value_name(choice.shown)
        .value_parser(parser_of(choice.value));
    let arg = with_absence(arg, choice.absence);
    match choice.goes_with {
        Some(other) => arg.requires_arg(other),
        None => Ok(arg),
    }
}

fn arg_of<'a>(alloc: Global, given: ArgumentForm<'a>) -> Result<Arg<'a>, AllocError> {
    let arg = Arg::new(alloc, given.name).help(given.help);
    match given.shape {
        ArgumentShape::Word(value) => Ok(
            arg.required(true)
                .action(ArgAction::Set)
                .value_parser(parser_of(value)),
        ),
        ArgumentShape::Words => Ok(arg.required(true).action(ArgAction::Append).num_args(1..)),
        ArgumentShape::Flag => Ok(arg.long(given.name).action(ArgAction::SetTrue)),
        ArgumentShape::Rival(other) => arg
            .long(given.name)
            .action(ArgAction::SetTrue)
            .conflicts_with(other),
        ArgumentShape::Choice(choice) => choice_of(arg, given.name, choice),
    }
}

fn command_of<'a>(alloc: Global, form: CommandForm<'a>) -> Result<Command<'a>, AllocError> {
    let mut command = Command::new(alloc, form.name)
        .about(form.about)
        .after_help(form.example);
    for given in form.given {
        command = command.arg(arg_of(alloc, *given)?)?;
    }
    Ok(command)
}

/// Whether one of these commands has this name.
fn is_among(forms: &[CommandForm<'_>], name: &str) -> bool {
    forms.iter().any(|form| form.name == name)
}

/// Whether the first word behind the program's name is this name, or that of no command.
fn is_needed(name: &str, first: &str) -> bool {
    name == first
        || !(is_among(tape_forms(), first)
            || is_among(file_forms(), first)
            || is_among(station_forms(), first)
            || is_among(reel_forms(), first))
}

/// The program with those of these commands that are needed.
fn with_forms<'a>(
    alloc: Global,
    program: Command<'a>,
    forms: &'a [CommandForm<'a>],
    first: &str,
) -> Result<Command<'a>, AllocError> {
    let mut program = program;
    for form in forms {
        if is_needed(form.name, first) {
            program = program.subcommand(command_of(alloc, *form)?)?;
        }
    }
    Ok(program)
}

/// The grammar of a line whose first word, behind the program's own name, is this one: of the command that it names alone, since
/// what is said of a command hangs on no other; of all commands for any other word.
pub(crate) fn grammar<'a>(alloc: Global, first: &str) -> Result<Command<'a>, AllocError> {
    let program = Command::new(alloc, "circuitd")
        .version(VERSION)
        .about("A wire circuit whose numbers never mean two stories")
        .subcommand_required(true);
    let program = with_forms(alloc, program, tape_forms(), first)?;
    let program = with_forms(alloc, program, file_forms(), first)?;
    let program = with_forms(alloc, program, station_forms(), first)?;
    with_forms(alloc, program, reel_forms(), first)
}
