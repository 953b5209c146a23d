//! Why no plant is made, or not all of it.

ghost use Rattle.std.specs.Prelude.{◌≡◌};
ghost use Rattle.command_ends.specs.declared.fault.Fault.TheVariants.{OutOfMemory, CannotWrite};
ghost use Rattle.init_command.specs.Ends.{end_in};
ghost use Rattle.init_command.specs.declared.cause.InitFault.TheVariants.{Other};

use command_ends::{CommandFault, End, Fault};
use std::alloc::{AllocError, AllocFailed};
use std::fmt;
use streams::CannotWrite;

/// Why no plant is made, or not all of it. Entries and members are counted from 1.
#[derive(Drop)]
pub enum InitFault {
    /// What any command tells in the same words.
    Other(Fault<'static>),
    /// The input at this path can't be read.
    CannotRead(String),
    /// Nor the file of keys at this one.
    KeyUnread(String),
    /// There are more entries than a circuit has stations.
    TooMany,
    /// This entry is no host with a port.
    NoPlace(usize),
    /// No host may have its address.
    NoHost(usize),
    /// It is an earlier one again.
    Again { at: usize, first: usize },
    /// There are not so many stations.
    NoMember { member: u8, stations: usize },
    /// The new circuit has the number of the old one.
    OldCircuit(u16),
    /// The new plant is the old one's folder.
    OldFolder,
    /// The plants have not one key, or another than the one that is named.
    OtherKey,
    /// The host gives no random bytes for a key.
    NoRandom,
    /// A text that would be written is not read as it was asked for.
    Unlike,
    /// What is to stand at this path was not made.
    NotMade(String),
}

impl From<Fault<'static>> for InitFault {
    ghost from_gives = { λ fault e. e ≡ Other fault };

    fn from(fault: Fault<'static>) -> InitFault {
        InitFault::Other(fault)
    }
}

impl From<AllocError> for InitFault {
    ghost from_gives = { λ _ e. e ≡ Other OutOfMemory };

    fn from(_error: AllocError) -> InitFault {
        InitFault::Other(Fault::OutOfMemory)
    }
}

impl<T: Drop> From<AllocFailed<T>> for InitFault {
    ghost from_gives = { λ _ e. e ≡ Other OutOfMemory };

    fn from(_error: AllocFailed<T>) -> InitFault {
        InitFault::Other(Fault::OutOfMemory)
    }
}

impl From<CannotWrite> for InitFault {
    ghost from_gives = { λ _ e. e ≡ Other CannotWrite };

    fn from(_error: CannotWrite) -> InitFault {
        InitFault::Other(Fault::CannotWrite)
    }
}

/// The text that a person reads.
impl fmt::Display for InitFault {
    fn fmt<W: fmt::Write>(&self, f: &mut fmt::Formatter<W>) -> fmt::Result {
        match self {
            InitFault::Other(fault) => write!(f, "{fault}"),
            InitFault::CannotRead(path) => write!(f, "cannot read {path}"),
            InitFault::KeyUnread(path) => write!(f, "key: cannot read {path}"),
            InitFault::TooMany => f.write_str("usage: --stations: more than 15 entries"),
            InitFault::NoPlace(at) => { write!(f, "usage: --stations: entry {at} is no HOST:PORT") }
            InitFault::NoHost(at) => {
                write!(f, "usage: --stations: entry {at} has an address of no host")
            }
            InitFault::Again { at, first } => {
                write!(f, "usage: --stations: entry {at} is entry {first} again")
            }
            InitFault::NoMember { member, stations } => {
                write!(f, "usage: --member {member}: there are {stations} stations")
            }
            InitFault::OldCircuit(circuit) => write!(
                f,
                "init: circuit {circuit} is the old one: take a number that was never used"
            ),
            InitFault::OldFolder => f.write_str("init: the new folder is the old one"),
            InitFault::OtherKey => f.write_str(
                "key: circuit.key is not the same at all of these plants, or another than --key names",
            ),
            InitFault::NoRandom => f.write_str("init: the host gives no random bytes for a key"),
            InitFault::Unlike => {
                f.write_str("init: a file would not be read as it was asked for")
            }
            InitFault::NotMade(path) => write!(f, "cannot make {path}"),
        }
    }
}

impl CommandFault for InitFault {
    ghost ends_as = { end_in };

    fn end(&self) -> End {
        match self {
            InitFault::Other(fault) => fault.end(),
            InitFault::TooMany
            | InitFault::NoPlace(_)
            | InitFault::NoHost(_)
            | InitFault::Again { .. }
            | InitFault::NoMember { .. } => End::Usage,
            _ => End::Input,
        }
    }
}
