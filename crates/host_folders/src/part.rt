//! Files that are written under a name of their own until they are whole.

use crate::held::Held;
use crate::looks::{id_of, stamp_of, stands_at, within};
use crate::maker::Maker;
use folders::{FileId, FolderFault, is_own_name};
use std::fs::File;
use std::io::{Seek, Write};
use std::os::fd::AsRawFd;
use std::{fs, io};

/// What a file that is made ahead holds until it is filled: a page of the disk.
const ROOM: [u8; 4096] = [0; 4096];

/// A file under a name of its own.
#[derive(Drop)]
pub(crate) struct Part {
    path: String,
    file: File,
    id: FileId,
}

impl Part {
    /// Makes an empty file in a folder, under a name that nothing has.
    pub(crate) fn make(maker: &mut Maker<'_>, folder: &str) -> Result<Part, FolderFault> {
        let name = maker.next_name()?;
        let path = within(maker.rt.alloc(), folder, &name)?;
        let file = File::create_new(maker.rt, path.as_str())?;
        let id = id_of(&file.metadata()?);
        Ok(Part { path, file, id })
    }

    /// The same, with bytes in it.
    pub(crate) fn filled(
        maker: &mut Maker<'_>,
        folder: &str,
        bytes: &[u8],
    ) -> Result<Part, FolderFault> {
        Part::make(maker, folder)?.fill(maker.rt, bytes)
    }

    /// The same, with room on the disk ahead of what it is to hold, so that whoever fills it waits for less.
    pub(crate) fn roomy(maker: &mut Maker<'_>, folder: &str) -> Result<Part, FolderFault> {
        let mut part = Part::make(maker, folder)?;
        match part.make_room() {
            Ok(()) => Ok(part),
            Err(fault) => {
                part.discard(maker.rt);
                Err(fault)
            }
        }
    }

    fn make_room(&mut self) -> Result<(), FolderFault> {
        self.file.write_all(&ROOM)?;
        self.file.sync_all()?;
        self.file.rewind()?;
        Ok(())
    }

    /// When it was touched last, in seconds and nanoseconds since 1970 by the clock of its folder.
    pub(crate) fn touched(&self) -> Result<(i64, i64), FolderFault> {
        Ok(stamp_of(&self.file.metadata()?).touched)
    }

    /// Writes bytes into it, all that it then holds, and has the host begin to write them to the disk. It does not wait for that. Where it
    /// fails the file is taken away.
    pub(crate) fn fill(mut self, rt: &HostRuntime, bytes: &[u8]) -> Result<Part, FolderFault> {
        let written = match self.file.write_all(bytes) {
            Ok(()) => self.file.set_len(bytes.len() as u64),
            Err(error) => Err(error),
        };
        if let Err(error) = written {
            self.discard(rt);
            return Err(FolderFault::from(error));
        }
        // By POSIX this is advice that its bytes are not needed soon, for which Linux starts to write those that the disk lacks; a host that
        // does not take it starts at the wait.
        libc::posix_fadvise(self.file.as_raw_fd(), 0, 0, libc::POSIX_FADV_DONTNEED);
        Ok(self)
    }

    /// Waits until the disk has what it holds, and gives it its name.
    fn rename(&self, rt: &HostRuntime, path: &str) -> Result<(), FolderFault> {
        self.file.sync_all()?;
        if !stands_at(rt, &self.path, self.id) {
            return Err(FolderFault::Changed);
        }
        fs::rename(rt, self.path.as_str(), path)?;
        if stands_at(rt, path, self.id) {
            Ok(())
        } else {
            Err(FolderFault::Changed)
        }
    }

    /// Gives it its name once the disk has what it holds, and lets it stay open; or takes it away. It is seen to be the very file that was
    /// filled before and after: where another stands under either name, `Changed`. For the host renames by path, and the folder may be
    /// another by now.
    pub(crate) fn name_as(self, rt: &HostRuntime, path: &str) -> Result<Held, FolderFault> {
        match self.rename(rt, path) {
            Ok(()) => Ok(Held {
                file: self.file,
                id: self.id,
            }),
            Err(fault) => {
                self.discard(rt);
                Err(fault)
            }
        }
    }

    /// Takes it away, where it has its own name still.
    pub(crate) fn discard(self, rt: &HostRuntime) {
        if stands_at(rt, &self.path, self.id) {
            let _ = fs::remove_file(rt, self.path.as_str());
        }
    }
}

/// Takes away what starts before left in a folder under names of their own.
pub(crate) fn clear_parts(rt: &HostRuntime, folder: &str) -> io::Result<()> {
    for entry in fs::read_dir(rt, folder)? {
        if let Ok(entry) = entry {
            if is_own_name(entry.file_name()) {
                let _ = fs::remove_file(rt, entry.path());
            }
        }
    }
    Ok(())
}
