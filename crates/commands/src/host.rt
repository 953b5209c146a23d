//! What a station asks of the machine that it runs on.

ghost use Rattle.std.specs.Prelude.{◌≡◌, ℕ, List, Option, None, Some, IfOk, IfSome};
ghost use Rattle.wire.specs.declared.address.Address.{Address as AddressValue};
ghost use Rattle.seals.specs.declared.opening.Keys.{Keys as KeysValue};
ghost use Rattle.commands.specs.Wires.{IsHostWire};

use crate::host_wire::HostWire;
use seals::Keys;
use std::io;
use std::io::Read;
use streams::InputFile;
use wire::{Address, Wire};

/// A machine with files of texts, and a network on which wires are opened.
pub trait Host {
    /// What a file is read by.
    type Text: Read + Drop;

    /// What a station sends and receives by.
    type Wire: Wire + Drop;

    // What the file at a path holds, where that is known.
    ghost text: { Self → List ℕ → Option (List ℕ) };

    // The wire was opened at this address, and sends to these; it is sealed under these keys, or plain where there are none.
    ghost is_bound: { Self.Wire → AddressValue → List AddressValue → Option KeysValue → Type 0 };

    /// The file at a path. One that can't be opened fails as it is read.
    fn open(&self, path: &str) -> Self::Text
        ensures { IfSome (text self.now path.now) (λ bytes. Self.Text.remaining result ≡ Some bytes) };

    /// A wire at the own address, that sends to these stations, in order of members from 1. It is sealed where there are keys.
    fn bind(
        &self,
        own: &Address,
        stations: Vec<Address>,
        keys: Option<Keys>,
    ) -> io::Result<Self::Wire>
        ensures { IfOk result (λ wire. is_bound wire own.now stations.items keys) };
}

/// The machine that the program runs on. What its files hold is not known.
#[derive(Clone, Copy)]
pub struct ThisHost<'a> {
    pub rt: &'a HostRuntime,
}

impl<'a> Host for ThisHost<'a> {
    type Text = InputFile;

    type Wire = HostWire<'a>;

    ghost text = { λ _ _. None };

    ghost is_bound = { IsHostWire };

    fn open(&self, path: &str) -> InputFile {
        InputFile::at(self.rt, path)
    }

    fn bind(
        &self,
        own: &Address,
        stations: Vec<Address>,
        keys: Option<Keys>,
    ) -> io::Result<HostWire<'a>> {
        HostWire::bind(self.rt, own, stations, keys)
    }
}
