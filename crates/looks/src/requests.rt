//! The files whose names ask for something, as a look found them.

ghost use Rattle.std.specs.Prelude.{◌≡◌, IfOk, length};
ghost use Rattle.std.specs.Map.{values_of};
ghost use Rattle.offers.specs.Order.{rising};
ghost use Rattle.looks.specs.Gathering.{ArePlaced};

use offers::FoundOffer;
use std::alloc::{AllocError, Global};
use std::collections::BTreeMap;
use std::marker::Model;

/// The files whose names ask for something that a look found, by their places among all files that there can be.
#[derive(Drop)]
pub struct Requests {
    alloc: Global,
    found: BTreeMap<u32, FoundOffer>,
}

impl Model for Requests {
    ghost use Rattle.std.specs.Prelude.{ℕ, List};
    ghost use Rattle.offers.specs.declared.offer.FoundOffer.{FoundOffer};
    ghost use Rattle.looks.specs.Gathering.{ArePlaced};

    ghost Value = { List (ℕ × FoundOffer) };

    ghost view = { λ r. r.found.entries };

    ghost invariant = { λ r. ArePlaced r.found.entries };
}

impl Requests {
    /// These, each at its own place.
    pub(crate) fn over(alloc: Global, found: BTreeMap<u32, FoundOffer>) -> Requests
        requires { ArePlaced found.entries }
        ensures { result ≡ found.entries }
    {
        Requests { alloc, found }
    }

    /// How many they are.
    pub fn len(&self) -> usize
        ensures { result ≡ length self.now }
    {
        self.found.len()
    }

    /// All of them, in order of their places.
    pub fn in_order(self) -> Result<Vec<FoundOffer>, AllocError>
        ensures all { IfOk result (λ requests. requests.items ≡ values_of self) }
        ensures order { IfOk result (λ requests. rising requests.items ≡ requests.items) }
    {
        let Requests { alloc, found } = self;
        let mut requests = Vec::with_capacity(alloc, found.len())?;
        for (_, file) in found {
            requests.push(file)?;
        }
        Ok(requests)
    }
}
