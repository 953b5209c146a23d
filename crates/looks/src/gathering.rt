//! What a look found so far.

ghost use Rattle.std.specs.Prelude.{◌≡◌, false, IfOk, OnOk, string_bytes};
ghost use Rattle.offers.specs.Order.{rank};
ghost use Rattle.looks.specs.Names.{IsRequest, IsStray};
ghost use Rattle.looks.specs.Gathering.{nothing_found, PutsRequest, PutsStray, Takes, GathersFile, GathersFiles, GathersOther, GathersOthers};
ghost use Rattle.looks.specs.Handing.{Hands, is_crowded};

use crate::looking::MOST_NAMES;
use crate::requests::Requests;
use folders::{FileRequest, FolderFault, Listing, PassedOver, Stamp, is_left, named};
use offers::{FoundOffer, rank};
use std::alloc::{AllocError, Global};
use std::collections::BTreeMap;
use std::marker::Model;

/// What a look found so far, in order as it comes, so that no turn sorts all of it. What comes twice counts once, as it was found last.
#[derive(Drop)]
pub(crate) struct LookFindings {
    alloc: Global,
    /// The files whose names ask for something, by their places.
    requests: BTreeMap<u32, FoundOffer>,
    /// The files whose names ask for nothing, by their names.
    strays: BTreeMap<String, Stamp>,
    /// Why something is passed over, by its name.
    others: BTreeMap<String, FolderFault>,
    /// How many names are not UTF-8.
    skipped: usize,
    /// Whether there was no memory for some of it.
    is_broken: bool,
}

impl Model for LookFindings {
    ghost use Rattle.looks.specs.Gathering.{GatheringValue, IsGathering};

    ghost Value = { GatheringValue };

    ghost view = { λ g. record { requests = g.requests.entries; strays = g.strays.entries; others = g.others.entries; skipped = g.skipped; is_broken = g.is_broken } };

    ghost invariant = { λ g. IsGathering g.requests.entries g.strays.entries };
}

/// What a look found that has come to its end.
#[derive(Drop)]
pub struct EndedLook {
    /// The files whose names ask for something.
    pub requests: Requests,
    /// The files whose names ask for nothing, by their names.
    pub strays: BTreeMap<String, Stamp>,
    /// Why something is passed over, by its name.
    pub others: BTreeMap<String, FolderFault>,
    /// How many names are not UTF-8.
    pub skipped: usize,
}

/// The place of a file among all files that there can be, whose number is one of a circuit.
fn place_of(request: FileRequest) -> u32
    ensures place { result ≡ rank request }
    ensures request { IsRequest request }
{
    let _number = request.number.get();
    rank(request)
}

impl EndedLook {
    /// Whether more of a kind was found than is taken in in one turn.
    pub fn is_crowded(&self) -> bool
        ensures { result ≡ is_crowded self.now }
    {
        self.requests.len() > MOST_NAMES
            || self.strays.len() > MOST_NAMES
            || self.others.len() > MOST_NAMES
    }
}

impl LookFindings {
    /// Nothing was found yet.
    pub(crate) fn new(alloc: Global) -> LookFindings
        ensures { result ≡ nothing_found }
    {
        LookFindings {
            alloc,
            requests: BTreeMap::new(alloc),
            strays: BTreeMap::new(alloc),
            others: BTreeMap::new(alloc),
            skipped: 0,
            is_broken: false,
        }
    }

    /// Puts a file to those that ask for something.
    fn put_request(&mut self, found: FoundOffer) -> Result<(), AllocError>
        ensures ok { OnOk result (PutsRequest found self.old self.new) }
        ensures rest { self.new ≡ record self.old { requests = self.new.requests } }
    {
        let place = place_of(found.request);
        match self.requests.insert(place, found) {
            Ok(_) => Ok(()),
            Err(_) => Err(AllocError),
        }
    }

    /// Puts a file to those that ask for nothing.
    fn put_stray(&mut self, name: String, stamp: Stamp) -> Result<(), AllocError>
        requires { IsStray (string_bytes name) }
        ensures ok { OnOk result (PutsStray (string_bytes name) stamp self.old self.new) }
        ensures rest { self.new ≡ record self.old { strays = self.new.strays } }
    {
        match self.strays.insert(name, stamp) {
            Ok(_) => Ok(()),
            Err(_) => Err(AllocError),
        }
    }

    /// Puts a file to one or the other, unless it is left alone.
    fn put(&mut self, file: folders::Found) -> Result<(), AllocError>
        ensures ok { OnOk result (self.old.is_broken ≡ false → GathersFile file self.old self.new) }
        ensures broken { self.new.is_broken ≡ self.old.is_broken }
    {
        let folders::Found { name, stamp } = file;
        match named(self.alloc, name.as_str())? {
            Some(request) => self.put_request(FoundOffer { request, stamp }),
            None if is_left(name.as_str()) => Ok(()),
            None => self.put_stray(name, stamp),
        }
    }

    /// Adds a file.
    fn add_file(&mut self, file: folders::Found)
        ensures { self.new.is_broken ≡ false → GathersFile file self.old self.new }
    {
        if self.put(file).is_err() {
            self.is_broken = true;
        }
    }

    /// Adds files.
    fn add_files(&mut self, files: Vec<folders::Found>)
        ensures { self.new.is_broken ≡ false → GathersFiles files.items self.old self.new }
    {
        for file in files {
            self.add_file(file);
        }
    }

    /// Adds what is passed over.
    fn add_other(&mut self, other: PassedOver)
        ensures { self.new.is_broken ≡ false → GathersOther other self.old self.new }
    {
        if self.others.insert(other.name, other.fault).is_err() {
            self.is_broken = true;
        }
    }

    /// Adds all that is passed over.
    fn add_others(&mut self, others: Vec<PassedOver>)
        ensures { self.new.is_broken ≡ false → GathersOthers others.items self.old self.new }
    {
        for other in others {
            self.add_other(other);
        }
    }

    /// Adds what was found now.
    pub(crate) fn push(&mut self, listing: Listing)
        ensures { self.new.is_broken ≡ false → Takes listing self.old self.new }
    {
        self.add_files(listing.files);
        self.add_others(listing.others);
        self.skipped = self.skipped.saturating_add(listing.skipped);
    }

    /// All of it, once the look has come to its end; where there was no memory for some of it, `AllocError`. None of it is walked, however much
    /// it is.
    pub(crate) fn finish(self) -> Result<EndedLook, AllocError>
        ensures { IfOk result (λ seen. Hands self seen) }
    {
        let LookFindings {
            alloc,
            requests,
            strays,
            others,
            skipped,
            is_broken,
        } = self;
        if is_broken {
            return Err(AllocError);
        }
        Ok(EndedLook {
            requests: Requests::over(alloc, requests),
            strays,
            others,
            skipped,
        })
    }
}
