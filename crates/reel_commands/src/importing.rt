//! The command `import`: a reel becomes tapes, each a file of its own.

ghost use Rattle.std.specs.Prelude.{◌≡◌, ◌<◌, ◌≤◌, ◌+◌, [], ◌∷◌, OnOk, OnErr, IfOk, IfErr, IfSome, length};
ghost use Rattle.command_ends.specs.Ends.{IsOfInput};
ghost use Rattle.reel.specs.Names.{tape_name};
ghost use Rattle.reel.specs.Tapes.{AreTapes};
ghost use Rattle.reel_commands.specs.Ends.{end_in, Gives};
ghost use Rattle.reel_commands.specs.Files.{Makes, FrontMade, files_from};
ghost use Rattle.reel_commands.specs.Importing.{frames_by, WasImported, BreaksOffImport};

use crate::cause::ReelFault;
use crate::files::{TakenName, TapeFolder};
use inputs::read_text;
use reel::{Cutting, Levels, MOST_TAPES, RollPiece, frames_in, frames_of, tape_name, tapes_of};
use std::alloc::Global;
use std::io::Read;

/// Which reel is taken, how its bytes are read, and where its tapes go.
#[derive(Clone, Copy)]
pub struct Reel<'a> {
    pub path: &'a str,
    pub levels: Levels,
    pub cutting: Cutting,
    pub folder: &'a str,
}

/// What became of a reel.
#[derive(Drop)]
pub struct Imported {
    /// How many frames it has.
    pub frames: usize,
    /// Its tapes, each a file by now.
    pub tapes: Vec<RollPiece>,
}

/// Reads the frames of a reel from the input at its path.
fn read_frames<'a, R: Read>(
    alloc: Global,
    reel: &Reel<'a>,
    input: &mut R,
) -> Result<Vec<u8>, ReelFault<'a>>
    ensures { Gives result (λ frames. IfSome (R.remaining input.old) (λ bytes. frames.items ≡ frames_by reel.now bytes)) }
{
    let bytes = read_text(alloc, input, reel.path)?;
    if bytes.is_empty() {
        return Err(ReelFault::EmptyReel);
    }
    Ok(frames_of(alloc, &reel.levels, &bytes)?)
}

/// The tapes of frames, of which there is one at least, and no more than have names.
fn tapes_in<'a>(
    alloc: Global,
    frames: &[u8],
    cutting: Cutting,
) -> Result<Vec<RollPiece>, ReelFault<'a>>
    ensures { Gives result (λ tapes. AreTapes cutting.least cutting.trims frames.now tapes.items × (length tapes.items ≤ 999)) }
{
    let tapes = tapes_of(alloc, frames, cutting)?;
    if tapes.is_empty() {
        return Err(ReelFault::NoTape);
    }
    if tapes.len() > MOST_TAPES {
        return Err(ReelFault::TooMany(tapes.len()));
    }
    Ok(tapes)
}

/// Refuses a name that is taken.
fn look_for<'a, F: TapeFolder>(
    alloc: Global,
    path: &'a str,
    number: usize,
    folder: &F,
) -> Result<(), ReelFault<'a>>
    ensures { IfErr result (λ e. IsOfInput (end_in e)) }
{
    let name = tape_name(alloc, number)?;
    match folder.look(alloc, &name) {
        TakenName::Free => Ok(()),
        TakenName::Taken => Err(ReelFault::Taken { folder: path, name }),
        TakenName::NoFolder => Err(ReelFault::NoFolder(path)),
    }
}

/// Refuses a folder in which one of the first so many names is taken.
fn look_for_all<'a, F: TapeFolder>(
    alloc: Global,
    path: &'a str,
    many: usize,
    folder: &F,
) -> Result<(), ReelFault<'a>>
    ensures { IfErr result (λ e. IsOfInput (end_in e)) }
{
    for before in 0..many {
        look_for(alloc, path, before + 1, folder)?;
    }
    Ok(())
}

/// A tape that is about to be a file, and how many were before it.
#[derive(Clone, Copy)]
struct Next<'b> {
    before: usize,
    frames: &'b [u8],
}

/// Makes the file of a tape.
fn make_one<'a, F: TapeFolder>(
    alloc: Global,
    path: &'a str,
    tape: Next<'_>,
    folder: &mut F,
) -> Result<(), ReelFault<'a>>
    requires { tape.before < 999 }
    ensures ok { OnOk result (Makes (F.made folder.old) (F.made folder.new) (record { name = tape_name (tape.entry.before + 1); bytes = tape.entry.frames.now } ∷ [])) }
    ensures err { IfErr result (λ e. (F.made folder.new ≡ F.made folder.old) × IsOfInput (end_in e)) }
{
    let name = tape_name(alloc, tape.before + 1)?;
    match folder.make(alloc, &name, tape.frames) {
        Ok(()) => Ok(()),
        Err(_) => Err(ReelFault::NotMade {
            folder: path,
            name,
            made: tape.before,
        }),
    }
}

/// A roll, and the tapes that it becomes.
#[derive(Drop)]
struct TapeRoll {
    frames: Vec<u8>,
    tapes: Vec<RollPiece>,
}

/// Makes the files of tapes, in order, up to the first that can't be made.
fn make_all<'a, F: TapeFolder>(
    alloc: Global,
    path: &'a str,
    roll: &TapeRoll,
    folder: &mut F,
) -> Result<(), ReelFault<'a>>
    requires { length roll.now.tapes.items ≤ 999 }
    ensures ok { OnOk result (Makes (F.made folder.old) (F.made folder.new) (files_from 1 roll.now.frames.items roll.now.tapes.items)) }
    ensures err { IfErr result (λ e. FrontMade roll.now.frames.items roll.now.tapes.items (F.made folder.old) (F.made folder.new) × IsOfInput (end_in e)) }
{
    for (before, tape) in roll.tapes.iter().enumerate() {
        let frames = frames_in(&roll.frames, *tape);
        make_one(alloc, path, Next { before, frames }, folder)?;
    }
    Ok(())
}

/// Makes tapes of a reel, each a file of its own: `001.tape`, `002.tape`, and so on.
///
/// Its bytes become frames by its levels; the roll is cut at its gaps; then each piece is trimmed where that is asked for. No file is
/// made before all names are seen to be free, and none over one that is there.
pub fn import<'a, R: Read, F: TapeFolder>(
    alloc: Global,
    reel: &Reel<'a>,
    input: &mut R,
    folder: &mut F,
) -> Result<Imported, ReelFault<'a>>
    ensures ok { IfOk result (λ done. IfSome (R.remaining input.old) (λ bytes. WasImported reel.now bytes done (F.made folder.old) (F.made folder.new))) }
    ensures front { OnErr result (IfSome (R.remaining input.old) (λ bytes. BreaksOffImport reel.now bytes (F.made folder.old) (F.made folder.new))) }
    ensures ends { IfErr result (λ e. IsOfInput (end_in e)) }
{
    let frames = read_frames(alloc, reel, input)?;
    let tapes = tapes_in(alloc, &frames, reel.cutting)?;
    look_for_all(alloc, reel.folder, tapes.len(), folder)?;
    let roll = TapeRoll { frames, tapes };
    make_all(alloc, reel.folder, &roll, folder)?;
    let frames = roll.frames.len();
    Ok(Imported {
        frames,
        tapes: roll.tapes,
    })
}
