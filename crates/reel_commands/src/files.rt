//! The folder that the tapes of a reel are put into.

ghost use Rattle.std.specs.Prelude.{◌≡◌, List, [], ◌∷◌, Option, None, OnOk, OnErr};
ghost use Rattle.reel_commands.specs.Files.{TapeFile, Makes};

use std::alloc::Global;

/// Whether a name is taken in a folder.
#[derive(Clone, Copy, PartialEq, Eq)]
pub enum TakenName {
    Free,
    Taken,
    /// There is no folder, or it can't be looked at.
    NoFolder,
}

/// A file was not made.
#[derive(Clone, Copy, PartialEq, Eq)]
pub struct NotMade;

/// A folder into which new files are put.
pub trait TapeFolder {
    // The files that were made in it, in order, where that is known.
    ghost made: { Self → Option (List TapeFile) } = { λ _. None };

    /// Whether something of this name is there.
    fn look(&self, alloc: Global, name: &str) -> TakenName;

    /// Makes a file of this name, of which nothing is there, with these bytes. Where it fails nothing is left of it.
    fn make(&mut self, alloc: Global, name: &str, bytes: &[u8]) -> Result<(), NotMade>
        ensures ok { OnOk result (Makes (made self.old) (made self.new) (record { name = name.now; bytes = bytes.now } ∷ [])) }
        ensures err { OnErr result (made self.new ≡ made self.old) };
}
