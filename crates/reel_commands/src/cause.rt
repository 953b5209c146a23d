//! Why `import` or `survey` did not end well.

ghost use Rattle.std.specs.Prelude.{◌≡◌};
ghost use Rattle.command_ends.specs.declared.fault.Fault.TheVariants.{OutOfMemory, CannotWrite};
ghost use Rattle.reel_commands.specs.Ends.{end_in};
ghost use Rattle.reel_commands.specs.declared.cause.ReelFault.TheVariants.{Other};

use command_ends::{CommandFault, End, Fault};
use reel::MOST_TAPES;
use std::alloc::AllocError;
use std::fmt;
use streams::CannotWrite;
use tape_frames::TapeFault;

/// Why `import` or `survey` did not end well.
#[derive(Drop)]
pub enum ReelFault<'a> {
    /// What any command tells in the same words.
    Other(Fault<'a>),
    /// A reel has no byte.
    EmptyReel,
    /// A reel has no frame that is kept.
    NoTape,
    /// A reel would become so many tapes, more than have names.
    TooMany(usize),
    /// What is named as a folder is none.
    NoFolder(&'a str),
    /// A file of this name is in the folder already, so nothing was written.
    Taken {
        folder: &'a str,
        name: String,
    },
    /// The file of this name was not written, and so many before it were.
    NotMade {
        folder: &'a str,
        name: String,
        made: usize,
    },
    /// What a path of several names is no tape.
    Tape {
        path: &'a str,
        fault: TapeFault,
    },
}

impl<'a> From<Fault<'a>> for ReelFault<'a> {
    ghost from_gives = { λ fault e. e ≡ Other fault };

    fn from(fault: Fault<'a>) -> ReelFault<'a> {
        ReelFault::Other(fault)
    }
}

impl<'a> From<AllocError> for ReelFault<'a> {
    ghost from_gives = { λ _ e. e ≡ Other OutOfMemory };

    fn from(_error: AllocError) -> ReelFault<'a> {
        ReelFault::Other(Fault::OutOfMemory)
    }
}

impl<'a> From<CannotWrite> for ReelFault<'a> {
    ghost from_gives = { λ _ e. e ≡ Other CannotWrite };

    fn from(_error: CannotWrite) -> ReelFault<'a> {
        ReelFault::Other(Fault::CannotWrite)
    }
}

/// Writes what is wrong with a tape, in the words of all commands.
fn put_tape_fault<W: fmt::Write>(
    f: &mut fmt::Formatter<W>,
    path: &str,
    fault: TapeFault,
) -> fmt::Result {
    let fault = Fault::of_tape(fault);
    write!(f, "{path}: {fault}")
}

impl<'a> fmt::Display for ReelFault<'a> {
    fn fmt<W: fmt::Write>(&self, f: &mut fmt::Formatter<W>) -> fmt::Result {
        match self {
            ReelFault::Other(fault) => write!(f, "{fault}"),
            ReelFault::EmptyReel => f.write_str("reel: empty"),
            ReelFault::NoTape => f.write_str("reel: no tape in it"),
            ReelFault::TooMany(tapes) => write!(
                f,
                "reel: {tapes} tapes, and names for {MOST_TAPES}\n--split with a greater number cuts it at fewer places"
            ),
            ReelFault::NoFolder(folder) => write!(f, "no folder {folder}"),
            ReelFault::Taken { folder, name } => {
                write!(f, "{folder}/{name} is there: nothing was written")
            }
            ReelFault::NotMade { folder, name, made } => {
                write!(f, "cannot write {folder}/{name}\ntapes before it: {made}")
            }
            ReelFault::Tape { path, fault } => put_tape_fault(f, *path, *fault),
        }
    }
}

impl<'a> CommandFault for ReelFault<'a> {
    ghost ends_as = { end_in };

    fn end(&self) -> End {
        match self {
            ReelFault::Other(fault) => fault.end(),
            _ => End::Input,
        }
    }
}
