//! What a station asks of two folders of the host, call by call.

use crate::gone::{GoneOut, PlantFolders};
use crate::maker::Maker;
use crate::moving::set_aside;
use crate::offers::Offers;
use crate::releases::Releases;
use ballots::Number;
use folders::{FolderFault, Folders, Leaving, Listing, NamedFile, News, Stamp, Unwritten, WentOut};
use gone_out::{Numbers, Origin};
use station_files::Holder;
use std::alloc::Global;
use std::mem;

/// Two folders of the host, which this process alone works with. What is set aside lies in folders within the first.
#[derive(Drop)]
pub struct HostFolders<'a> {
    maker: Maker<'a>,
    offers: Offers,
    releases: Releases,
    gone: GoneOut,
}

impl<'a> HostFolders<'a> {
    /// The folders at these paths, which are held from now on. One that is not there, or does not serve, is held once it does; one that
    /// another process holds is refused, and which it is told.
    pub fn open(
        rt: &'a HostRuntime,
        offers: String,
        releases: String,
    ) -> Result<HostFolders<'a>, Holder> {
        let mut maker = Maker::new(rt);
        let mut offers = Offers::new(offers, maker.start());
        let mut releases = Releases::new(rt.alloc(), releases);
        // A `stop` that is laid as soon as the lock is seen is newer than the start.
        offers.note_start(&mut maker);
        if matches!(offers.check(&mut maker), Err(FolderFault::InUse)) {
            return Err(Holder::Offers);
        }
        if matches!(releases.check(rt), Err(FolderFault::InUse)) {
            return Err(Holder::Releases);
        }
        Ok(HostFolders {
            maker,
            offers,
            releases,
            gone: GoneOut::Early(Vec::new(rt.alloc())),
        })
    }

    /// Sees to it that the folder of offers is held.
    fn check_offers(&mut self) -> Result<(), FolderFault> {
        if self.offers.check(&mut self.maker)? {
            let _ = self.releases.news.push(News::OtherOffers);
        }
        Ok(())
    }

    /// Adds the records of what went out, once the disk has the names of its files.
    fn settle_gone(&mut self) -> Result<(), FolderFault> {
        self.releases.settle_names()?;
        self.gone.write(&mut self.maker, &self.releases)
    }

    /// Readies the folder of releases for what is written next.
    fn ready_releases(&mut self) {
        if self.releases.check(self.maker.rt).is_ok() {
            // Where the disk refuses the names, no file leaves the offers.
            let _ = self.settle_gone();
            self.releases.make_spares(&mut self.maker);
        }
    }
}

impl<'a> Folders for HostFolders<'a> {
    fn list(&mut self, alloc: Global, most: usize) -> Result<Listing, FolderFault> {
        if !self.offers.is_looking() {
            self.ready_releases();
            self.check_offers()?;
        }
        let mut listing = self.offers.list(self.maker.rt, most)?;
        listing.news = mem::replace(&mut self.releases.news, Vec::new(alloc));
        Ok(listing)
    }

    fn has_stop(&self, _alloc: Global) -> bool {
        self.offers.has_stop(self.maker.rt)
    }

    fn read(
        &mut self,
        _alloc: Global,
        name: &str,
        stamp: Stamp,
        most: usize,
    ) -> Result<Option<Vec<u8>>, FolderFault> {
        self.offers.read(self.maker.rt, name, stamp, most)
    }

    fn put_all(&mut self, _alloc: Global, files: &[NamedFile]) -> Result<(), Unwritten> {
        self.releases.put_all(&mut self.maker, files)
    }

    fn set_aside(
        &mut self,
        _alloc: Global,
        leaving: Leaving<'_>,
        beside: Option<&str>,
    ) -> Result<(), FolderFault> {
        self.releases.settle_names()?;
        // A record that is refused is tried again at the next look.
        let _ = self.gone.write(&mut self.maker, &self.releases);
        self.check_offers()?;
        set_aside(&mut self.maker, self.offers.root(), leaving, beside)
    }

    fn remove(&mut self, _alloc: Global, name: &str) -> Result<(), FolderFault> {
        self.offers.remove(self.maker.rt, name)
    }

    fn went_out(
        &mut self,
        _alloc: Global,
        own: &Origin,
        known: &Numbers,
    ) -> Result<Option<WentOut>, FolderFault> {
        self.releases.check(self.maker.rt)?;
        self.settle_gone()?;
        let mut plant = PlantFolders {
            maker: &mut self.maker,
            releases: &self.releases,
            offers: self.offers.root(),
        };
        let went = self.gone.start(&mut plant, own, known)?;
        Ok(Some(went))
    }

    fn note_gone(&mut self, _alloc: Global, numbers: &[Number]) -> Result<(), FolderFault> {
        self.gone.note(numbers)
    }

    fn note_before(&mut self, _alloc: Global, numbers: &[Number]) -> Result<(), FolderFault> {
        self.gone.note(numbers)
    }

    fn settle(&mut self, _alloc: Global) -> Result<(), FolderFault> {
        self.releases.check(self.maker.rt)?;
        self.settle_gone()?;
        self.gone.sync()
    }
}
