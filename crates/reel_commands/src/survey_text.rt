//! The text of a survey.

ghost use Rattle.std.specs.Prelude.{◌≡◌, ◌++◌, ◌<◌, ◌≤◌, OnOk, IfOk, flat_map, count_by};
ghost use Rattle.code_table.specs.Tables.{mean};
ghost use Rattle.reel_commands.specs.Survey.{tape_lines, frame_text_of, is_wanted, all_frames, head_text, foot_text, survey_text};

use crate::places::times_in;
use crate::rows::{Chart, lack_of, put_row, put_tape_lines};
use crate::surveying::{Survey, Surveyed};
use code_table::CodeTable;
use columns::put_digits;
use std::alloc::{AllocError, Global};

/// Writes the lines of the first places of a frame in each tape.
fn put_all_lines(
    text: &mut Vec<u8>,
    table: &CodeTable,
    frame: u8,
    tapes: &[Surveyed],
) -> Result<(), AllocError>
    ensures { OnOk result (text.new.items ≡ text.old.items ++ flat_map (tape_lines (mean table.now) frame) tapes.now) }
{
    for surveyed in tapes {
        put_tape_lines(text, table, frame, surveyed)?;
    }
    Ok(())
}

/// Writes the row of a frame, and the lines of its first places.
fn put_frame_text(text: &mut Vec<u8>, survey: &Survey, frame: u8) -> Result<(), AllocError>
    requires { frame < 64 }
    ensures { OnOk result (text.new.items ≡ text.old.items ++ frame_text_of (mean survey.now.table) survey.now.widths survey.now.tapes.items frame) }
{
    let chart = Chart {
        table: &survey.table,
        widths: &survey.widths,
    };
    put_row(text, chart, frame, times_in(frame, &survey.tapes))?;
    put_all_lines(text, &survey.table, frame, &survey.tapes)
}

/// Writes the text of each frame.
fn put_frames(text: &mut Vec<u8>, survey: &Survey) -> Result<(), AllocError>
    ensures { OnOk result (text.new.items ≡ text.old.items ++ flat_map (frame_text_of (mean survey.now.table) survey.now.widths survey.now.tapes.items) all_frames) }
{
    for frame in 0..64u8 {
        put_frame_text(text, survey, frame)?;
    }
    Ok(())
}

/// Whether a frame comes and lacks something.
fn is_wanted(survey: &Survey, frame: u8) -> bool
    ensures { result ≡ is_wanted (mean survey.now.table) survey.now.widths survey.now.tapes.items frame }
{
    times_in(frame, &survey.tapes) != 0 && !lack_of(&survey.table, &survey.widths, frame).is_empty()
}

/// How many frames come and lack something.
fn count_wanted(survey: &Survey) -> usize
    ensures { result ≡ count_by (is_wanted (mean survey.now.table) survey.now.widths survey.now.tapes.items) all_frames }
{
    let mut wanted = 0;
    for frame in 0..64u8 {
        if is_wanted(survey, frame) {
            wanted += 1;
        }
    }
    wanted
}

/// Writes the head.
#[tactic(auto, unfolding(crate::specs::Survey::head_text))]
fn put_head(text: &mut Vec<u8>) -> Result<(), AllocError>
    ensures { OnOk result (text.new.items ≡ text.old.items ++ head_text) }
{
    text.extend_from_slice(b"frame  holes     times  lacks    unshift       shift\n")
}

/// Writes the last line.
#[tactic(auto, unfolding(crate::specs::Survey::foot_text))]
fn put_foot(text: &mut Vec<u8>, wanted: usize) -> Result<(), AllocError>
    ensures { OnOk result (text.new.items ≡ text.old.items ++ foot_text wanted) }
{
    text.extend_from_slice(b"frames that come and lack something: ")?;
    put_digits(text, wanted)?;
    text.extend_from_slice(b"\n")
}

/// The survey of tapes by a table and widths: of each of the 64 frames its row and its first places, and how many are wanted.
pub(crate) fn survey_text(alloc: Global, survey: &Survey) -> Result<Vec<u8>, AllocError>
    ensures { IfOk result (λ text. text.items ≡ survey_text (mean survey.now.table) survey.now.widths survey.now.tapes.items) }
{
    let mut text = Vec::new(alloc);
    put_head(&mut text)?;
    put_frames(&mut text, survey)?;
    put_foot(&mut text, count_wanted(survey))?;
    Ok(text)
}
