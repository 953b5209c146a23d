//! What a file among the offers asks for, as it is read.

ghost use Rattle.std.specs.Prelude.{OnOk};
ghost use Rattle.protocol.specs.Lists.{IsAmong};
ghost use Rattle.folders.specs.Doings.{saw_file};
ghost use Rattle.run_command.specs.Minding.{WasRead};
ghost use Rattle.run_command.specs.Working.{BecameTape, HasRead, IfRead, IsTapeOrFault, IsWishOfText, LaySo, Looks};

use crate::texts::{MAX_TEXT, tape_of_text};
use code_table::CodeTable;
use folders::{FolderFault, Folders, OfferKind, Wish, name_of};
use offers::{FoundOffer, OfferFault};
use std::alloc::Global;
use tape_frames::{Entry, MAX_FRAMES, Tape, TapeFault};
use text_tape::PunchError;

/// A file among the offers, by its name, as it was found.
#[derive(Clone, Copy)]
struct NamedFound<'a> {
    name: &'a str,
    found: &'a FoundOffer,
}

/// The tape in a file, or why it is none.
fn read_tape<F: Folders>(
    alloc: Global,
    folders: &mut F,
    file: &NamedFound<'_>,
) -> Result<Result<Tape, TapeFault>, FolderFault>
    ensures { Looks (F.doings folders.old) (F.doings folders.new) (λ doings. IfRead result (λ tape. HasRead doings file.now.name.now tape)) }
{
    let stamp = file.found.stamp;
    match folders.read(alloc, file.name, stamp, MAX_FRAMES)? {
        Some(bytes) => Ok(Tape::from_vec(alloc, bytes)),
        None => {
            let len = usize::try_from(stamp.length).unwrap_or(usize::MAX);
            Ok(Err(TapeFault::TooLong { len }))
        }
    }
}

/// The tape that a text becomes, or why it is no offer. Where there is no memory for it, it can't be read now.
fn punched(
    alloc: Global,
    table: &CodeTable,
    text: &[u8],
) -> Result<Result<Tape, OfferFault>, FolderFault>
    ensures { IsTapeOrFault table.now text.now result }
{
    match tape_of_text(alloc, table, text) {
        Ok(tape) => Ok(Ok(tape)),
        Err(PunchError::OutOfMemory) => Err(FolderFault::OutOfMemory),
        Err(fault) => Ok(Err(OfferFault::Text(fault))),
    }
}

/// The tape that the text in a file becomes by this table, or why the file is no offer.
fn read_text<F: Folders>(
    alloc: Global,
    folders: &mut F,
    file: &NamedFound<'_>,
    table: &CodeTable,
) -> Result<Result<Tape, OfferFault>, FolderFault>
    ensures { Looks (F.doings folders.old) (F.doings folders.new) (λ doings. BecameTape table.now doings file.now.name.now result) }
{
    match folders.read(alloc, file.name, file.found.stamp, MAX_TEXT)? {
        Some(text) => punched(alloc, table, text.as_slice()),
        None => Ok(Err(OfferFault::LongText)),
    }
}

/// What a text in a file asks for by this table, or why it is no offer; where no text may be offered, it is none.
fn read_wish<F: Folders>(
    alloc: Global,
    folders: &mut F,
    file: &NamedFound<'_>,
    texts: &Option<CodeTable>,
) -> Result<Result<Wish, OfferFault>, FolderFault>
    ensures { Looks (F.doings folders.old) (F.doings folders.new) (λ doings. IfRead result (λ wish. IsWishOfText texts.now doings file.now.name.now wish)) }
{
    let Some(table) = texts else {
        return Ok(Err(OfferFault::NoTexts));
    };
    match read_text(alloc, folders, file, table)? {
        Ok(tape) => Ok(Ok(Wish::Offered(Entry::Tape(tape)))),
        Err(reason) => Ok(Err(reason)),
    }
}

/// Sees to it that a file lies there, whatever it holds.
fn find<F: Folders>(
    alloc: Global,
    folders: &mut F,
    file: &NamedFound<'_>,
) -> Result<(), FolderFault>
    ensures { Looks (F.doings folders.old) (F.doings folders.new) (λ doings. OnOk result (IsAmong doings (saw_file file.now.name.now))) }
{
    let _ = folders.read(alloc, file.name, file.found.stamp, 0)?;
    Ok(())
}

/// What a file asks for, or why it is no offer. Where there is no memory for its tape, it can't be read now.
fn read_named<F: Folders>(
    alloc: Global,
    folders: &mut F,
    file: &NamedFound<'_>,
    texts: &Option<CodeTable>,
) -> Result<Result<Wish, OfferFault>, FolderFault>
    ensures { Looks (F.doings folders.old) (F.doings folders.new) (λ doings. IfRead result (λ wish. LaySo texts.now doings file.now.found.now.request file.now.name.now wish)) }
{
    match file.found.request.kind {
        OfferKind::Withdraw => {
            find(alloc, folders, file)?;
            Ok(Ok(Wish::Offered(Entry::Void)))
        }
        OfferKind::Seek => {
            find(alloc, folders, file)?;
            Ok(Ok(Wish::Sought))
        }
        OfferKind::Tape => match read_tape(alloc, folders, file)? {
            Ok(tape) => Ok(Ok(Wish::Offered(Entry::Tape(tape)))),
            Err(TapeFault::OutOfMemory) => Err(FolderFault::OutOfMemory),
            Err(fault) => Ok(Err(OfferFault::Tape(fault))),
        },
        OfferKind::Text => read_wish(alloc, folders, file, texts),
    }
}

/// What a file, as it was found, asks for, or why it is no offer. One that was changed since is not read.
pub(crate) fn read<F: Folders>(
    alloc: Global,
    folders: &mut F,
    found: &FoundOffer,
    texts: &Option<CodeTable>,
) -> Result<Result<Wish, OfferFault>, FolderFault>
    ensures { Looks (F.doings folders.old) (F.doings folders.new) (λ doings. IfRead result (λ wish. WasRead texts.now doings found.now.request wish)) }
{
    let name = name_of(alloc, found.request)?;
    let file = NamedFound {
        name: name.as_str(),
        found,
    };
    read_named(alloc, folders, &file, texts)
}
