//! Files and folders that are made where nothing stands.

ghost use Rattle.std.specs.Prelude.{◌≡◌, ◌∷◌, [], List, Option, None, Ok};
ghost use Rattle.init_command.specs.Making.{MadeThing, Makes, thing_made};

/// What came of a file or a folder that was to be made.
#[derive(Clone, Copy, PartialEq, Eq)]
pub enum Made {
    /// It was made.
    New,
    /// It stands there already, as it would have been made.
    Same,
    /// Another file stands there, and is left as it is.
    Other,
}

/// It was not made, and does not stand there.
#[derive(Clone, Copy, PartialEq, Eq)]
pub struct NotMade;

/// A file or a folder that is to be made.
#[derive(Drop)]
pub struct Thing<'a> {
    pub path: String,
    /// Who may use it at most.
    pub mode: u32,
    /// What a file has; `None` for a folder.
    pub bytes: Option<&'a [u8]>,
}

/// A place in which files and folders are made. Nothing that stands there is changed.
pub trait NewFolder {
    // What was made in it, in order, where that is known.
    ghost made: { Self → Option (List MadeThing) } = { λ _. None };

    /// Makes a file or a folder, where nothing stands under its path. Where it fails nothing is left of it.
    fn make(&mut self, thing: &Thing<'_>) -> Result<Made, NotMade>
        ensures new { result ≡ Ok Made.New → Makes (made self.old) (made self.new) (thing_made thing.now ∷ []) }
        ensures left { ¬ (result ≡ Ok Made.New) → made self.new ≡ made self.old };
}
