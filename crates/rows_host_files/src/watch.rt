//! Whether the row file and the log that a start opened stand at their paths.

use crate::keeping::keep_pair;
use crate::watched::Watch;
use folders::FileId;
use rows_files::{
    FoundId, FoundPair, PairIds, RefusedRows, RowsCause, Standing, opened_pair, standing_of,
};
use station_files::log_path;
use std::fs::{File, Metadata};
use std::io::ErrorKind;
use std::os::unix::fs::MetadataExt;
use std::{fs, io};

/// The path of a row file, and that of its log: beside where a link leads.
#[derive(Drop)]
pub(crate) struct PairPaths {
    pub(crate) file: String,
    log: String,
}

/// What watches the row file and the log that a start opened. Both are open for reading, so that what they hold can be kept once no path leads to them.
#[derive(Drop)]
pub struct HostWatch {
    host: HostRuntime,
    paths: PairPaths,
    own: PairIds,
    file: File,
    log: File,
    looks: u64,
    /// What the last look found.
    last: Standing,
}

/// The paths of the row file at one, as an open finds them.
pub(crate) fn paths_at(rt: &HostRuntime, path: &str) -> Result<PairPaths, RefusedRows> {
    let real = fs::canonicalize(rt, path)?;
    let real = real.as_str();
    Ok(PairPaths {
        file: String::from_str(rt.alloc(), path)?,
        log: log_path(rt.alloc(), real)?,
    })
}

/// Which file it is.
fn id_of(data: &Metadata) -> FileId {
    FileId {
        device: data.dev(),
        inode: data.ino(),
    }
}

/// What is found, where the host answered so.
fn found(answer: io::Result<Metadata>) -> FoundId {
    match answer {
        Ok(data) => FoundId::Is(id_of(&data)),
        Err(error)
            if error.kind() == ErrorKind::NotFound || error.kind() == ErrorKind::NotADirectory => {
            FoundId::Nothing
        }
        Err(_) => FoundId::Unseen,
    }
}

/// What stands at two paths. A link is followed to the file, as the database does; at the name of the log it follows none.
pub(crate) fn found_at(rt: &HostRuntime, paths: &PairPaths) -> FoundPair {
    FoundPair {
        file: found(fs::metadata(rt, paths.file.as_str())),
        log: found(fs::symlink_metadata(rt, paths.log.as_str())),
    }
}

impl HostWatch {
    /// What watches the files that an open opened at these paths, where `before` was found before it. Where another file came to stand there
    /// meanwhile the rows are refused.
    pub(crate) fn behind(
        rt: &HostRuntime,
        paths: PairPaths,
        before: FoundPair,
    ) -> Result<HostWatch, RefusedRows> {
        let Some(own) = opened_pair(before, found_at(rt, &paths)) else {
            return Err(RefusedRows::for_cause(RowsCause::InUse));
        };
        let file = File::open(rt, paths.file.as_str())?;
        let log = File::open(rt, paths.log.as_str())?;
        let open = FoundPair {
            file: found(file.metadata()),
            log: found(log.metadata()),
        };
        if standing_of(own, open) != Standing::Theirs {
            return Err(RefusedRows::for_cause(RowsCause::InUse));
        }
        Ok(HostWatch {
            host: *rt,
            paths,
            own,
            file,
            log,
            looks: 0,
            last: Standing::Theirs,
        })
    }
}

impl Watch for HostWatch {
    ghost looks = { λ s. s.looks };

    fn stands(&mut self) -> bool {
        self.last = standing_of(self.own, found_at(&self.host, &self.paths));
        if self.last != Standing::Theirs {
            return false;
        }
        self.looks = self.looks.saturating_add(1);
        true
    }

    /// Where it can't be told what stands at the paths, nothing is kept: the pair may stand there.
    fn keep(self) -> RowsCause {
        let HostWatch {
            host,
            paths,
            own: _,
            file,
            log,
            looks: _,
            last,
        } = self;
        if last == Standing::Unseen {
            return RowsCause::Unopened;
        }
        keep_pair(&host, &paths.file, file, log)
    }
}
