//! Free names in the folders of what left the offers, and texts there.

use crate::looks::{id_at, plain_file, within};
use crate::maker::Maker;
use crate::part::Part;
use folders::{FolderFault, copy_name, next_try, text_name};
use std::fs::File;
use std::io;
use std::io::Read;

/// More tries than a free number takes: 64 to get beyond those that are taken, and 64 back.
const TRIES: u32 = 160;

/// Whether the plain file at a path holds this text, and no more.
fn holds(rt: &HostRuntime, path: &str, text: &str) -> io::Result<bool> {
    match plain_file(rt, path) {
        Ok(stamp) if stamp.length == text.len() as u64 => {}
        _ => return Ok(false),
    }
    let mut bytes = Vec::new(rt.alloc());
    File::open(rt, path)?
        .take(text.len() as u64)
        .read_to_end(&mut bytes)?;
    Ok(bytes.as_slice() == text.as_bytes())
}

/// Whether nothing is lost where a file is put at this path: nothing has it, or a file that holds this text already.
fn is_free(rt: &HostRuntime, path: &str, text: Option<&str>) -> Result<bool, FolderFault> {
    if id_at(rt, path)?.is_none() {
        return Ok(true);
    }
    match text {
        Some(text) => Ok(matches!(holds(rt, path, text), Ok(true))),
        None => Ok(false),
    }
}

/// The path at which a file of this name is put in a folder: with the first number that was found free behind it. What was set aside
/// or written there before is never written over.
pub(crate) fn free_path(
    rt: &HostRuntime,
    folder: &str,
    name: &str,
    text: Option<&str>,
) -> Result<String, FolderFault> {
    let mut taken: u64 = 0;
    let mut free = None;
    for _ in 0..TRIES {
        let Some(number) = next_try(taken, free) else {
            break;
        };
        let copy = copy_name(rt.alloc(), name, number)?;
        if is_free(rt, &within(rt.alloc(), folder, &copy)?, text)? {
            free = Some(number);
        } else {
            taken = number;
        }
    }
    let number = free.ok_or(FolderFault::Failed)?;
    let copy = copy_name(rt.alloc(), name, number)?;
    Ok(within(rt.alloc(), folder, &copy)?)
}

/// Writes a text for beside a file of this name in a folder, unless one that says the same lies there.
pub(crate) fn write_beside(
    maker: &mut Maker<'_>,
    folder: &str,
    name: &str,
    text: &str,
) -> Result<(), FolderFault> {
    let name = text_name(maker.rt.alloc(), name)?;
    let path = free_path(maker.rt, folder, &name, Some(text))?;
    if id_at(maker.rt, &path)?.is_some() {
        return Ok(());
    }
    Part::filled(maker, folder, text.as_bytes())?.name_as(maker.rt, &path)?;
    File::open(maker.rt, folder)?.sync_all()?;
    Ok(())
}
