//! What befalls the file of what went out.

ghost use Rattle.std.specs.Prelude.{codes};
ghost use Rattle.plant_log.specs.Words.{folders_text};
ghost use Rattle.plant_log.specs.Telling.{WasTold};
ghost use Rattle.catch_up_log.specs.Words.{unread_text};

use crate::line::CatchUpLine;
use crate::writing::tell_line;
use folders::FolderFault;
use plant_log::tell_folders;
use std::alloc::Global;
use std::io::Write;

/// Tells that a file of what went out at another station lay among the releases, and was set aside.
pub fn tell_set_aside<E: Write>(alloc: Global, err: &mut E)
    ensures { WasTold (folders_text (codes "releases has .released of another station, which was set aside")) (E.contents err.old) (E.contents err.new) }
{
    tell_folders(
        alloc,
        "releases has .released of another station, which was set aside",
        err,
    );
}

/// Tells that it can't be read what went out here, so that nothing is asked for until it can be.
pub fn tell_unread<E: Write>(alloc: Global, fault: FolderFault, err: &mut E)
    ensures { WasTold (unread_text fault) (E.contents err.old) (E.contents err.new) }
{
    tell_line(alloc, &CatchUpLine::Unread(fault), err);
}
