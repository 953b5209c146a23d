//! Files that are to be written, or were.

ghost use Rattle.std.specs.Prelude.{◌≡◌, IfOk, string_bytes};

use std::alloc::{AllocError, Global};
use std::marker::Model;
use std::rc::Rc;

/// A file, as its name and what it holds, which others may own too. Clauses see the bytes of both.
#[derive(Drop)]
pub struct NamedFile {
    pub name: String,
    pub bytes: Rc<Vec<u8>>,
}

impl Model for NamedFile {
    ghost use Rattle.std.specs.Prelude.{string_bytes};
    ghost use Rattle.folders.specs.Written.{File};

    ghost Value = { File };

    ghost view = { λ p. record { name = string_bytes p.name; bytes = p.bytes.value.items } };
}

impl NamedFile {
    /// The file of this name that holds these bytes.
    pub fn new(alloc: Global, name: String, bytes: Vec<u8>) -> Result<NamedFile, AllocError>
        ensures { IfOk result (λ p. p ≡ record { name = string_bytes name; bytes = bytes.items }) }
    {
        match Rc::new(alloc, bytes) {
            Ok(bytes) => Ok(NamedFile { name, bytes }),
            Err(_) => Err(AllocError),
        }
    }

    /// The same of a copy of both.
    pub fn of(alloc: Global, name: &str, bytes: &[u8]) -> Result<NamedFile, AllocError>
        ensures { IfOk result (λ p. p ≡ record { name = name.now; bytes = bytes.now }) }
    {
        let name = String::from_str(alloc, name)?;
        let bytes = Vec::from_slice(alloc, bytes)?;
        NamedFile::new(alloc, name, bytes)
    }
}
