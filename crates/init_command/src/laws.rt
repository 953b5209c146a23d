//! Laws over the definitions. The functions do nothing: their contracts are the laws.

ghost use Rattle.init_command.specs.Files.{KeyIsKept};

/// A station takes the key with the mode that it is made with.
pub fn key_is_kept()
    ensures { KeyIsKept }
{}
