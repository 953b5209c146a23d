//! The commands for editors, run over the files that their words name.

use crate::console::Console;
use crate::story::Story;
use code_table::Name;
use command_ends::{End, Fault};
use editor_commands::{FitOrder, Form, Given, PunchOrder, SpellOrder, fit, punch, spell};
use inputs::{StoryPaths, TapePaths};
use rows_files::RowFiles;
use std::alloc::Global;
use std::io::{Read, Write};
use tape_frames::Version;
use text_words::{LigatureError, ligatures_of};

/// What is told where a ligature can be none.
const NO_LIGATURE: &str = "--ligatures takes names of matrices without a brace, as fi,fl,ffi";

/// The ligatures that are named, if any are.
fn ligatures_by(alloc: Global, names: Option<&str>) -> Result<Vec<Name>, LigatureError> {
    match names {
        Some(names) => ligatures_of(alloc, names),
        None => Ok(Vec::new(alloc)),
    }
}

/// Why there are no ligatures.
fn no_ligatures<'a>(error: LigatureError) -> Fault<'a> {
    match error {
        LigatureError::OutOfMemory => Fault::OutOfMemory,
        LigatureError::NoName => Fault::Usage(NO_LIGATURE),
    }
}

/// Punches the text at its path, with the ligatures that are named, by the table at its. The names are looked at first.
pub(crate) fn run_punch<F: RowFiles, R: Read + Drop, W: Write + Drop, E: Write + Drop>(
    console: &mut Console<'_, F, R, W, E>,
    paths: &StoryPaths<'_>,
    ligatures: Option<&str>,
    room: Version,
) -> End {
    let rt = console.rt;
    let Console {
        input,
        out,
        err,
        ..
    } = console;
    let ligatures = match ligatures_by(rt.alloc(), ligatures) {
        Ok(ligatures) => ligatures,
        Err(error) => return no_ligatures(error).tell(err),
    };
    let paths = *paths;
    let order = PunchOrder {
        paths: &paths,
        table: Story::of_file(rt, paths.table),
        text: Story::at(rt, paths.story, input),
        ligatures: &ligatures,
        room,
    };
    punch(rt.alloc(), order, out, err)
}

/// Spells the tape at its path by the table at its.
pub(crate) fn run_spell<F: RowFiles, R: Read + Drop, W: Write + Drop, E: Write + Drop>(
    console: &mut Console<'_, F, R, W, E>,
    paths: &StoryPaths<'_>,
    plain: bool,
) -> End {
    let rt = console.rt;
    let Console {
        input,
        out,
        err,
        ..
    } = console;
    let order = SpellOrder {
        paths,
        table: Story::of_file(rt, paths.table),
        tape: Story::at(rt, paths.story, input),
        form: if plain { Form::Plain } else { Form::Punchable },
    };
    spell(rt.alloc(), order, out, err)
}

/// Tells how each line fits of the story at its path, by the table and the widths at theirs.
pub(crate) fn run_fit<F: RowFiles, R: Read + Drop, W: Write + Drop, E: Write + Drop>(
    console: &mut Console<'_, F, R, W, E>,
    paths: &TapePaths<'_>,
    text: bool,
) -> End {
    let rt = console.rt;
    let Console {
        input,
        out,
        err,
        ..
    } = console;
    let order = FitOrder {
        paths,
        table: Story::of_file(rt, paths.table),
        widths: Story::of_file(rt, paths.widths),
        story: Story::at(rt, paths.tape, input),
        given: if text { Given::Text } else { Given::Tape },
    };
    fit(rt.alloc(), order, out, err)
}
