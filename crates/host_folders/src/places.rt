//! Where the files and folders of a station stand on the host: what is found of each there, and nothing else. What may not be is decided by
//! `station_files`.

use crate::looks::{folder_at, id_at};
use station_files::{
    ALL, Holder, Home, Mark, Misplaced, StationFile, StationPaths, Trace, first_clash,
    first_within, path_of,
};
use std::alloc::AllocError;
use std::fs;
use std::path::Path;

/// A path of a file of the station: the one that is named, or where that leads.
#[derive(Drop)]
struct NamedPath {
    file: StationFile,
    path: String,
}

/// The folder of a path.
fn parent_of(path: &str) -> &str {
    match Path::new(path).parent() {
        Some(parent) if !parent.as_str().is_empty() => parent.as_str(),
        _ => ".",
    }
}

/// Adds where a path leads, where something stands there.
fn add_real(
    rt: &HostRuntime,
    file: StationFile,
    path: &str,
    found: &mut Vec<NamedPath>,
) -> Result<(), AllocError> {
    if let Ok(real) = fs::canonicalize(rt, path) {
        let path = String::from_str(rt.alloc(), real.as_str())?;
        found.push(NamedPath { file, path })?;
    }
    Ok(())
}

/// All paths of a station's files.
fn named_paths(rt: &HostRuntime, paths: &StationPaths<'_>) -> Result<Vec<NamedPath>, AllocError> {
    let mut found = Vec::new(rt.alloc());
    for file in ALL {
        let Some(path) = path_of(rt.alloc(), paths, file)? else {
            continue;
        };
        if file.follows_links() {
            add_real(rt, file, &path, &mut found)?;
        }
        found.push(NamedPath { file, path })?;
    }
    Ok(found)
}

/// Adds the marks of a path: its name in its folder, and what stands there, where these can be looked at.
fn add_marks<'p>(
    rt: &HostRuntime,
    named: &'p NamedPath,
    traces: &mut Vec<Trace<'p>>,
) -> Result<(), AllocError> {
    let file = named.file;
    let path = Path::new(named.path.as_str());
    if let (Ok(folder), Some(name)) = (folder_at(rt, parent_of(&named.path)), path.file_name()) {
        let mark = Mark::At { folder, name };
        traces.push(Trace { file, mark })?;
    }
    if let Ok(Some(id)) = id_at(rt, &named.path) {
        let mark = Mark::Is(id);
        traces.push(Trace { file, mark })?;
    }
    Ok(())
}

/// The marks of all paths.
fn traces_of<'p>(rt: &HostRuntime, named: &'p [NamedPath]) -> Result<Vec<Trace<'p>>, AllocError> {
    let mut traces = Vec::new(rt.alloc());
    for named in named {
        add_marks(rt, named, &mut traces)?;
    }
    Ok(traces)
}

/// Adds the folders in which, and below which, a path lies.
fn add_homes(rt: &HostRuntime, named: &NamedPath, homes: &mut Vec<Home>) -> Result<(), AllocError> {
    let Ok(real) = fs::canonicalize(rt, parent_of(&named.path)) else {
        return Ok(());
    };
    for above in real.ancestors() {
        if let Ok(folder) = folder_at(rt, above.as_str()) {
            let file = named.file;
            homes.push(Home { file, folder })?;
        }
    }
    Ok(())
}

/// The folders of all paths.
fn homes_of(rt: &HostRuntime, named: &[NamedPath]) -> Result<Vec<Home>, AllocError> {
    let mut homes = Vec::new(rt.alloc());
    for named in named {
        add_homes(rt, named, &mut homes)?;
    }
    Ok(homes)
}

/// The first file that lies within this folder of the station and may not, where there is such a folder.
fn held_in(
    rt: &HostRuntime,
    holder: Holder,
    path: Option<&str>,
    homes: &[Home],
) -> Option<Misplaced> {
    let folder = folder_at(rt, path?).ok()?;
    match first_within(folder, homes) {
        Some(file) => Some(Misplaced::Within(holder, file)),
        None => None,
    }
}

/// Why a station is not to be run with its files and folders at these paths, if there is a reason. Files are told apart by their names in their
/// folders, and by device and inode; what is not there is no reason, and what can't be looked at.
pub fn why_misplaced(
    rt: &HostRuntime,
    paths: &StationPaths<'_>,
) -> Result<Option<Misplaced>, AllocError> {
    let named = named_paths(rt, paths)?;
    let homes = homes_of(rt, &named)?;
    for (holder, path) in [
        (Holder::Offers, paths.offers),
        (Holder::Releases, paths.releases),
    ] {
        if let Some(reason) = held_in(rt, holder, path, &homes) {
            return Ok(Some(reason));
        }
    }
    let traces = traces_of(rt, &named)?;
    match first_clash(&traces) {
        Some(clash) => Ok(Some(Misplaced::Same(clash))),
        None => Ok(None),
    }
}

/// Where the row file at a path is found, links followed; the path itself where nothing stands there.
pub fn rows_at(rt: &HostRuntime, path: &str) -> Result<String, AllocError> {
    match fs::canonicalize(rt, path) {
        Ok(real) => String::from_str(rt.alloc(), real.as_str()),
        Err(_) => String::from_str(rt.alloc(), path),
    }
}
