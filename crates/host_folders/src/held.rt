//! The file `.released` of the host: found, read, and open under its name.

use crate::looks::{id_at, id_of, plain_file, within};
use folders::{FileId, FolderFault, Kept, RELEASED, Records, kept_of};
use gone_out::Origin;
use std::fs::{File, OpenOptions};
use std::io::{Read, Seek, SeekFrom, Write};

/// Twice the bytes that a record for each number takes: a file that is longer is refused.
const MOST: u64 = 16_777_216;

/// The file, open under its name.
#[derive(Drop)]
pub(crate) struct Held {
    pub(crate) file: File,
    pub(crate) id: FileId,
}

/// The file as it was found, and what it holds for the station; `None` where it is not this station's.
#[derive(Drop)]
pub(crate) struct GoneFile {
    pub(crate) held: Held,
    pub(crate) kept: Option<Kept>,
}

impl Held {
    /// How long it is.
    pub(crate) fn len(&self) -> Result<u64, FolderFault> {
        Ok(self.file.metadata()?.len())
    }

    /// Adds records behind the whole ones, and does not wait for the disk.
    pub(crate) fn add(&mut self, records: &Records) -> Result<(), FolderFault> {
        self.file.set_len(records.place)?;
        self.file.seek(SeekFrom::Start(records.place))?;
        self.file.write_all(&records.bytes)?;
        Ok(())
    }
}

/// The path of the file in a folder of releases.
pub(crate) fn path_in(rt: &HostRuntime, folder: &str) -> Result<String, FolderFault> {
    Ok(within(rt.alloc(), folder, RELEASED)?)
}

/// Opens the plain file at a path and reads it for a station; `None` where it is empty.
fn read(rt: &HostRuntime, path: &str, own: &Origin) -> Result<Option<GoneFile>, FolderFault> {
    if plain_file(rt, path)?.length > MOST {
        return Err(FolderFault::TooLong);
    }
    let file = OpenOptions::new().read(true).write(true).open(rt, path)?;
    let id = id_of(&file.metadata()?);
    let mut bytes = Vec::new(rt.alloc());
    let mut front = (&file).take(MOST);
    front.read_to_end(&mut bytes)?;
    if bytes.is_empty() {
        return Ok(None);
    }
    let kept = kept_of(rt.alloc(), &bytes, own)?;
    let held = Held { file, id };
    Ok(Some(GoneFile { held, kept }))
}

/// What lies under the name in a folder of releases; `None` where nothing does, or an empty file.
pub(crate) fn find(
    rt: &HostRuntime,
    folder: &str,
    own: &Origin,
) -> Result<Option<GoneFile>, FolderFault> {
    let path = path_in(rt, folder)?;
    if id_at(rt, &path)?.is_none() {
        return Ok(None);
    }
    match read(rt, &path, own) {
        // A folder.
        Err(FolderFault::Missing) => Err(FolderFault::NoFile),
        found => found,
    }
}
