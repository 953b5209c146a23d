//! Texts punched as tapes.

ghost use Rattle.std.specs.Prelude.{◌≡◌, ◌≤◌, ℕ, List, length, IfOk, IfErr};
ghost use Rattle.code_table.specs.Tables.{mean};
ghost use Rattle.tape_frames.specs.Frames.{most_frames};
ghost use Rattle.text_tape.specs.Codes.{case_behind};
ghost use Rattle.text_tape.specs.Punching.{most_in, IsPunched, IsPunchedBy, IsErrorBy, IsStop, IsStopped, AddsPiece};

use crate::adding::{adds, push_added};
use crate::fault::{PunchCause, PunchError, PunchFault};
use crate::index::Codes;
use code_table::{Case, CodeTable, Name};
use std::alloc::{AllocError, Global};
use tape_frames::{MAX_FRAMES, MAX_FRAMES_ONE, Version};
use text_words::{first_piece, place_behind};

/// What a text is punched by: a code table, the letters that are taken as one matrix, and the version that has room for the tape.
#[derive(Clone, Copy)]
pub struct PunchedBy<'a> {
    pub table: &'a CodeTable,
    pub ligatures: &'a [Name],
    pub room: Version,
}

/// The same with the codes at hand, and with the most frames for which there is room.
#[derive(Clone, Copy)]
struct PunchKeys<'a> {
    codes: &'a Codes<'a>,
    ligatures: &'a [Name],
    most: usize,
}

/// What stops the punch at a word.
#[derive(Clone, Copy)]
pub(crate) enum Stop {
    Cause(PunchCause),
    OutOfMemory,
}

/// Where it stops.
#[derive(Clone, Copy)]
pub(crate) struct Stopped {
    pub at: usize,
    pub stop: Stop,
}

/// The most frames of a tape that the version has room for.
fn most_of(version: Version) -> usize
    ensures value { result ≡ most_in version }
    ensures range { (2 ≤ result) × (result ≤ most_frames) }
{
    match version {
        Version::One => MAX_FRAMES_ONE,
        Version::Two => MAX_FRAMES,
    }
}

/// Punches the first piece of a text, and answers how long that is.
fn punch_piece(
    keys: &PunchKeys<'_>,
    text: &[u8],
    case: &mut Case,
    frames: &mut Vec<u8>,
) -> Result<usize, Stop>
    requires most { 2 ≤ keys.now.most }
    requires some { 1 ≤ length text.now }
    requires case { case.old ≡ case_behind (mean keys.now.codes.now) frames.old.items }
    ensures ok { IfOk result (λ len. AddsPiece keys.now.most keys.now.ligatures.now (mean keys.now.codes.now) text.now frames.old.items frames.new.items len) }
    ensures case { IfOk result (λ len. case.new ≡ case_behind (mean keys.now.codes.now) frames.new.items) }
    ensures err { IfErr result (λ stop. IsStop keys.now.most keys.now.ligatures.now (mean keys.now.codes.now) frames.old.items text.now stop) }
{
    let codes = keys.codes;
    let Some(piece) = first_piece(keys.ligatures, text) else {
        return Err(Stop::Cause(PunchCause::NoEnd));
    };
    let len = piece.len;
    let Some(word) = piece.said else {
        return Err(Stop::Cause(PunchCause::NoCode { len }));
    };
    let Some(added) = adds(codes, *case, &word) else {
        return Err(Stop::Cause(PunchCause::NoCode { len }));
    };
    if frames.len() > keys.most - added.len() {
        return Err(Stop::Cause(PunchCause::TooLong));
    }
    match push_added(codes, case, frames, added) {
        Ok(()) => Ok(len),
        Err(_) => Err(Stop::OutOfMemory),
    }
}

/// The frames of a text.
fn frames_of(alloc: Global, keys: &PunchKeys<'_>, text: &[u8]) -> Result<Vec<u8>, Stopped>
    requires { 2 ≤ keys.now.most }
    ensures punched { IfOk result (λ frames. IsPunched keys.now.ligatures.now (mean keys.now.codes.now) text.now frames.items) }
    ensures few { IfOk result (λ frames. length frames.items ≤ keys.now.most) }
    ensures err { IfErr result (λ stopped. IsStopped keys.now.most keys.now.ligatures.now (mean keys.now.codes.now) text.now stopped) }
{
    let mut frames = Vec::new(alloc);
    let mut case = Case::Unshift;
    let mut at = 0;
    while at < text.len() {
        match punch_piece(keys, &text[at..], &mut case, &mut frames) {
            Ok(len) => at += len,
            Err(stop) => return Err(Stopped { at, stop }),
        }
    }
    Ok(frames)
}

/// The tape of a text: the frames of its words, in order. The letters of a ligature are one word, where they stand outside braces.
///
/// Otherwise the first word that cannot be punched, with its line and column: it has no code or no end, or its frames are more
/// than a tape of the version has room for. `Empty` comes where there is no word.
pub fn punch(alloc: Global, by: &PunchedBy<'_>, text: &[u8]) -> Result<Vec<u8>, PunchError>
    ensures punched { IfOk result (λ tape. IsPunchedBy by.now text.now tape.items) }
    ensures fault { IfErr result (λ e. IsErrorBy by.now text.now e) }
{
    if text.is_empty() {
        return Err(PunchError::Empty);
    }
    let Ok(codes) = Codes::new(alloc, by.table) else {
        return Err(PunchError::OutOfMemory);
    };
    let keys = PunchKeys {
        codes: &codes,
        ligatures: by.ligatures,
        most: most_of(by.room),
    };
    match frames_of(alloc, &keys, text) {
        Ok(frames) => Ok(frames),
        Err(Stopped { at, stop }) => match stop {
            Stop::OutOfMemory => Err(PunchError::OutOfMemory),
            Stop::Cause(cause) => {
                let place = place_behind(&text[..at]);
                Err(PunchError::Fault(PunchFault {
                    at,
                    line: place.line,
                    column: place.column,
                    cause,
                }))
            }
        },
    }
}
