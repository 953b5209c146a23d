//! Why a file of keys is not taken.

ghost use Rattle.circuit_keys.specs.Keys.{EndsByKey};

use command_ends::Fault;

/// The first of these that holds.
#[derive(Clone, Copy, PartialEq, Eq)]
pub enum KeyFault {
    /// It can't be opened or read, or is no file.
    CannotRead,
    /// Others than its owner can read or write it.
    OthersCan,
    /// It holds something else than one key or two.
    BadFile,
    /// There is no memory for it.
    OutOfMemory,
}

/// Why the file of keys at this path is not taken.
#[derive(Clone, Copy)]
pub struct RefusedKey<'a> {
    pub path: &'a str,
    pub fault: KeyFault,
}

/// What a person reads.
impl<'a> From<RefusedKey<'a>> for Fault<'a> {
    ghost from_gives = { λ refused told. EndsByKey refused.fault told };

    fn from(refused: RefusedKey<'a>) -> Fault<'a> {
        match refused.fault {
            KeyFault::CannotRead => Fault::KeyUnread(refused.path),
            KeyFault::OthersCan => Fault::Key("others can read it"),
            KeyFault::BadFile => Fault::Key("bad file"),
            KeyFault::OutOfMemory => Fault::OutOfMemory,
        }
    }
}
