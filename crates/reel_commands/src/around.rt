//! What stands around a place of a tape.

ghost use Rattle.std.specs.Prelude.{◌≡◌, ◌++◌, [], ◌∷◌, OnOk, option_copied, unwrap_or};
ghost use Rattle.code_table.specs.Tables.{mean};
ghost use Rattle.slug_reader.specs.Meanings.{selected_by};
ghost use Rattle.reel_commands.specs.Survey.{shown, near, around};

use code_table::{Case, CodeTable, Meaning};
use std::alloc::AllocError;
use text_words::{put_frame, put_meaning};

/// A frame at a place of a tape, and what it means there.
#[derive(Drop)]
struct Stand<'a> {
    at: usize,
    frame: u8,
    meaning: Option<&'a Meaning>,
}

/// Writes how a frame is shown where it means this.
fn put_shown(text: &mut Vec<u8>, meaning: Option<&Meaning>, frame: u8) -> Result<(), AllocError>
    ensures { OnOk result (text.new.items ≡ text.old.items ++ shown (option_copied meaning.entry) frame) }
{
    match meaning {
        None => put_frame(text, frame),
        Some(Meaning::Elevate) => text.extend_from_slice(b"{@elevate}"),
        Some(meaning) => put_meaning(text, meaning),
    }
}

/// Writes it in brackets.
fn put_in_brackets(
    text: &mut Vec<u8>,
    meaning: Option<&Meaning>,
    frame: u8,
) -> Result<(), AllocError>
    ensures { OnOk result (text.new.items ≡ text.old.items ++ (91 ∷ shown (option_copied meaning.entry) frame ++ 93 ∷ [])) }
{
    text.push(b'[')?;
    put_shown(text, meaning, frame)?;
    text.push(b']')?;
    Ok(())
}

/// Writes what is shown of a frame beside the one at a place: up to eight on each side, and that one in brackets.
fn put_near(text: &mut Vec<u8>, at: usize, stand: Stand<'_>) -> Result<(), AllocError>
    ensures { OnOk result (text.new.items ≡ text.old.items ++ near at stand.entry.at (shown (option_copied stand.entry.meaning) stand.entry.frame)) }
{
    if stand.at == at {
        put_in_brackets(text, stand.meaning, stand.frame)
    } else if at.abs_diff(stand.at) <= 8 {
        put_shown(text, stand.meaning, stand.frame)
    } else {
        Ok(())
    }
}

/// The case that holds behind a frame.
fn case_behind(table: &CodeTable, case: Case, frame: u8) -> Case
    ensures { result ≡ unwrap_or (selected_by (mean table.now) frame) case }
{
    match table.meaning(Case::Unshift, frame) {
        Some(meaning) => meaning.selects().unwrap_or(case),
        None => case,
    }
}

/// Writes what stands around a place of a tape, each frame as it means where it stands.
#[tactic(auto, unfolding(crate::specs::Survey::around))]
pub(crate) fn put_around(
    text: &mut Vec<u8>,
    table: &CodeTable,
    tape: &[u8],
    place: usize,
) -> Result<(), AllocError>
    ensures { OnOk result (text.new.items ≡ text.old.items ++ around (mean table.now) tape.now place) }
{
    let mut case = Case::Unshift;
    for (at, frame) in tape.iter().enumerate() {
        let meaning = table.meaning(case, *frame);
        let stand = Stand {
            at,
            frame: *frame,
            meaning,
        };
        put_near(text, place, stand)?;
        case = case_behind(table, case, *frame);
    }
    Ok(())
}
