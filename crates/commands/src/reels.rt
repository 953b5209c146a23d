//! The commands for restorers, run over the files that their words name.

use crate::console::Console;
use crate::story::Story;
use crate::tapes::HostTapes;
use command_ends::{End, Fault, end_with, found_with};
use command_line::ReelPlan;
use inputs::SettingPaths;
use reel::{Cutting, Levels, LevelsFault, levels_of, mask_of};
use reel_commands::{Reel, ReelFault, Survey, are_tapes, import, put_import};
use rows_files::RowFiles;
use std::alloc::Global;
use std::io::{Read, Write};
use streams::InputFile;

/// What is told where a mask has not six bits.
const NO_MASK: &str = "--mask takes a byte of which six bits are set, as 0x3f";

/// What is told where a word does not name each level.
const NO_LEVELS: &str = "--levels takes each level from 0 to 5 once, as 543210";

/// The levels that a line names.
fn levels_by(alloc: Global, plan: &ReelPlan<'_>) -> Result<Levels, LevelsFault> {
    let Some(mask) = mask_of(plan.mask.as_bytes()) else {
        return Err(LevelsFault::BadMask);
    };
    levels_of(alloc, plan.levels.as_bytes(), mask, plan.inverted)
}

/// Why a line names no levels.
fn no_levels<'a>(fault: LevelsFault) -> Fault<'a> {
    match fault {
        LevelsFault::OutOfMemory => Fault::OutOfMemory,
        LevelsFault::BadMask => Fault::Usage(NO_MASK),
        LevelsFault::BadLevels => Fault::Usage(NO_LEVELS),
    }
}

/// How the roll of a line is cut.
fn cutting_by(plan: &ReelPlan<'_>) -> Cutting {
    Cutting {
        least: plan.split.unwrap_or(0) as usize,
        trims: plan.trims,
    }
}

/// Makes tapes of a reel, and tells of each; whether none is longer than a tape may be.
fn import_reel<'a, R: Read, W: Write>(
    rt: &HostRuntime,
    reel: &Reel<'a>,
    input: &mut R,
    out: &mut W,
) -> Result<bool, ReelFault<'a>> {
    let mut folder = HostTapes::at(rt, reel.folder);
    let done = import(rt.alloc(), reel, input, &mut folder)?;
    put_import(rt.alloc(), &done, out)?;
    Ok(are_tapes(&done.tapes))
}

/// Makes tapes of the reel at its path. The levels are looked at first.
pub(crate) fn run_import<F: RowFiles, R: Read + Drop, W: Write + Drop, E: Write + Drop>(
    console: &mut Console<'_, F, R, W, E>,
    plan: &ReelPlan<'_>,
) -> End {
    let rt = console.rt;
    let Console {
        input,
        out,
        err,
        ..
    } = console;
    let levels = match levels_by(rt.alloc(), plan) {
        Ok(levels) => levels,
        Err(fault) => return no_levels(fault).tell(err),
    };
    let reel = Reel {
        path: plan.path,
        levels,
        cutting: cutting_by(plan),
        folder: plan.folder,
    };
    let mut bytes = Story::at(rt, plan.path, input);
    found_with(import_reel(rt, &reel, &mut bytes, out), err)
}

/// Surveys the tapes at their paths, one after the other, by the table and the widths at theirs.
fn survey_tapes<'a, W: Write>(
    rt: &HostRuntime,
    paths: &SettingPaths<'a>,
    tapes: &'a [String],
    out: &mut W,
) -> Result<(), ReelFault<'a>> {
    let mut table = InputFile::at(rt, paths.table);
    let mut widths = InputFile::at(rt, paths.widths);
    let mut survey = Survey::read(rt.alloc(), paths, &mut table, &mut widths)?;
    for path in tapes {
        let mut tape = InputFile::at(rt, path.as_str());
        survey.add(rt.alloc(), path.as_str(), &mut tape)?;
    }
    survey.write(rt.alloc(), out)
}

/// Surveys the tapes at their paths.
pub(crate) fn run_survey<F: RowFiles, R: Read + Drop, W: Write + Drop, E: Write + Drop>(
    console: &mut Console<'_, F, R, W, E>,
    paths: &SettingPaths<'_>,
    tapes: &[String],
) -> End {
    let rt = console.rt;
    let Console { out, err, .. } = console;
    end_with(survey_tapes(rt, paths, tapes, out), err)
}
