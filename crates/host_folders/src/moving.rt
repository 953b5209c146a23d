//! Files that leave the offers: through a passage of their own, where each is judged by what it is.

use crate::copies::{free_path, write_beside};
use crate::looks::{found_again, id_at, plain_file, within};
use crate::maker::Maker;
use crate::open_folder::OpenFolder;
use crate::part::clear_parts;
use folders::{
    FolderFault, Leaving, Mover, PASSAGE, PLACES, Place, Return, is_as_read, may_return,
    move_behind, return_of, test_same,
};
use std::alloc::Global;
use std::fs;
use std::io::ErrorKind;

/// What is told beside a file whose name was taken while it was on its way.
const NAME_TAKEN: &str = "another file came to stand under its name\n";

/// The folder of a place, which is made where it is not there. No link is followed to it.
fn place_at(rt: &HostRuntime, offers: &str, to: Place) -> Result<OpenFolder, FolderFault> {
    OpenFolder::made_below(rt, offers, to.folder())
}

/// Whether what lies at a path in the passage may be put back under its name.
fn is_returned(rt: &HostRuntime, own: &str, name: &str) -> bool {
    may_return(name, plain_file(rt, own).is_ok())
}

/// Takes a file from its name into the passage, and answers its path there. What a process left there before is put back first.
fn move_away(
    maker: &mut Maker<'_>,
    offers: &str,
    passage: &OpenFolder,
    name: &str,
) -> Result<String, FolderFault> {
    let own = passage.within(maker.rt.alloc(), name)?;
    if id_at(maker.rt, &own)?.is_some() {
        if is_returned(maker.rt, &own, name) {
            put_back(maker, offers, &own, name)?;
        }
        return Err(FolderFault::Changed);
    }
    let from = within(maker.rt.alloc(), offers, name)?;
    fs::rename(maker.rt, from.as_str(), own.as_str())?;
    Ok(own)
}

/// Gives what lies in the passage its name again, where nothing has come to stand there.
fn give_back(rt: &HostRuntime, own: &str, home: &str) -> Result<(), FolderFault> {
    match fs::hard_link(rt, own, home) {
        Ok(()) => fs::remove_file(rt, own)?,
        Err(error) if error.kind() == ErrorKind::AlreadyExists => return Err(FolderFault::Changed),
        // A folder, or a disk without links.
        Err(_) => {
            if id_at(rt, home)?.is_some() {
                return Err(FolderFault::Changed);
            }
            fs::rename(rt, own, home)?;
        }
    }
    Ok(())
}

/// Puts what lies in the passage back to its name among the offers, or where another stands there, to what is refused.
fn put_back(maker: &mut Maker<'_>, offers: &str, own: &str, name: &str) -> Result<(), FolderFault> {
    let home = within(maker.rt.alloc(), offers, name)?;
    let Some(file) = id_at(maker.rt, own)? else {
        return Ok(());
    };
    match return_of(file, id_at(maker.rt, &home)?) {
        Return::Back => give_back(maker.rt, own, &home),
        Return::Stands => Ok(fs::remove_file(maker.rt, own)?),
        Return::Refused => {
            let folder = place_at(maker.rt, offers, Place::Refused)?;
            write_beside(maker, folder.root(), name, NAME_TAKEN)?;
            let path = free_path(maker.rt, folder.root(), name, None)?;
            Ok(fs::rename(maker.rt, own, path.as_str())?)
        }
    }
}

/// Puts what lies in the passage into a folder, where it is the file that was found.
fn put_aside(
    rt: &HostRuntime,
    own: &str,
    folder: &str,
    leaving: Leaving<'_>,
) -> Result<(), FolderFault> {
    if !is_as_read(leaving.stamp, found_again(rt, own)?) {
        return Err(FolderFault::Changed);
    }
    let path = free_path(rt, folder, leaving.name, None)?;
    Ok(fs::rename(rt, own, path.as_str())?)
}

/// The way of a file from the offers to a folder of theirs.
#[derive(Drop)]
struct Way<'w, 'a> {
    maker: &'w mut Maker<'a>,
    /// What the paths of files among the offers begin with.
    offers: &'w str,
    passage: OpenFolder,
    place: OpenFolder,
}

/// The way from the offers to this place.
fn way_to<'w, 'a>(
    maker: &'w mut Maker<'a>,
    offers: &'w str,
    to: Place,
) -> Result<Way<'w, 'a>, FolderFault> {
    let passage = OpenFolder::made_below(maker.rt, offers, PASSAGE)?;
    let place = place_at(maker.rt, offers, to)?;
    Ok(Way {
        maker,
        offers,
        passage,
        place,
    })
}

impl Mover for Way<'_, '_> {
    fn write_text(
        &mut self,
        _alloc: Global,
        leaving: Leaving<'_>,
        text: &str,
    ) -> Result<(), FolderFault> {
        write_beside(self.maker, self.place.root(), leaving.name, text)
    }

    fn move_file(&mut self, _alloc: Global, leaving: Leaving<'_>) -> Result<(), FolderFault> {
        let own = move_away(self.maker, self.offers, &self.passage, leaving.name)?;
        let put = put_aside(self.maker.rt, &own, self.place.root(), leaving);
        if put.is_err() {
            put_back(self.maker, self.offers, &own, leaving.name)?;
        }
        put
    }
}

/// Moves a file of the offers to a place, once the text beside it is written. It is taken from its name first, and judged then: what is
/// not the file that was found is put back.
pub(crate) fn set_aside(
    maker: &mut Maker<'_>,
    offers: &str,
    leaving: Leaving<'_>,
    beside: Option<&str>,
) -> Result<(), FolderFault> {
    let alloc = maker.rt.alloc();
    let home = within(alloc, offers, leaving.name)?;
    test_same(leaving.stamp, found_again(maker.rt, &home)?)?;
    let mut way = way_to(maker, offers, leaving.to)?;
    move_behind(alloc, &mut way, leaving, beside)
}

/// Puts back what lies under a name in the passage, where a process may have left it there.
fn return_one(
    maker: &mut Maker<'_>,
    offers: &str,
    passage: &OpenFolder,
    name: &str,
) -> Result<(), FolderFault> {
    let own = passage.within(maker.rt.alloc(), name)?;
    if is_returned(maker.rt, &own, name) {
        put_back(maker, offers, &own, name)?;
    }
    Ok(())
}

/// Puts back what lies in the passage: what was on its way as a process ended. A link in place of the passage is not followed.
fn clear_passage(maker: &mut Maker<'_>, offers: &str) -> Result<(), FolderFault> {
    let passage = OpenFolder::below(maker.rt, offers, PASSAGE)?;
    for entry in fs::read_dir(maker.rt, passage.root())? {
        if let Ok(entry) = entry {
            // One that can't be put back now stays for the next start.
            let _ = return_one(maker, offers, &passage, entry.file_name());
        }
    }
    Ok(())
}

/// Settles what starts before left among the offers and where these are set aside.
pub(crate) fn clear_offers(maker: &mut Maker<'_>, offers: &str) -> Result<(), FolderFault> {
    let _ = clear_passage(maker, offers);
    let _ = clear_parts(maker.rt, offers);
    for place in PLACES {
        if let Ok(folder) = OpenFolder::below(maker.rt, offers, place.folder()) {
            let _ = clear_parts(maker.rt, folder.root());
        }
    }
    Ok(())
}
