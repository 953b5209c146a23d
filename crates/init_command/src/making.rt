//! A plant is made, and what is made of it is told.

ghost use Rattle.std.specs.Prelude.{◌≡◌, ◌++◌, OnOk, OnErr, IfOk, codes, flat_map, option_map, string_bytes};
ghost use Rattle.std.specs.Io.KnownBytes.{Appends};
ghost use Rattle.init_command.specs.Making.{line_of, Makes, made_by, thing_made, TellsTrue, TellsAllTrue};
ghost use Rattle.init_command.specs.Plants.{one_or_none, plant_things, things_of, thing_in, wanted_as, wanted_of, with_bytes};

use crate::cause::InitFault;
use crate::made::{Made, NewFolder, NotMade, Thing};
use crate::plant_file::PlantFile;
use std::alloc::{AllocError, Global};
use std::io::Write;
use streams::{CannotWrite, put_parts};

/// What the files of a plant have. It has no key and no text of before where these are left out.
#[derive(Clone, Copy)]
pub struct Contents<'a> {
    pub table: &'a [u8],
    pub widths: &'a [u8],
    pub key: Option<&'a [u8]>,
    pub before: Option<&'a str>,
    pub configuration: &'a str,
}

/// What stands where a file of a plant is to be.
#[derive(Clone, Copy)]
enum Wanted<'a> {
    Folder,
    File(&'a [u8]),
    Nothing,
}

impl<'a> Contents<'a> {
    /// What a file is to have.
    fn wanted(&self, file: PlantFile) -> Wanted<'a>
        ensures { wanted_as result ≡ wanted_of self.now file }
    {
        match file {
            PlantFile::Offers | PlantFile::Releases => Wanted::Folder,
            PlantFile::Table => Wanted::File(self.table),
            PlantFile::Widths => Wanted::File(self.widths),
            PlantFile::Key => match self.key {
                Some(bytes) => Wanted::File(bytes),
                None => Wanted::Nothing,
            },
            PlantFile::Before => match self.before {
                Some(text) => Wanted::File(text.as_bytes()),
                None => Wanted::Nothing,
            },
            PlantFile::Configuration => Wanted::File(self.configuration.as_bytes()),
        }
    }
}

/// Writes the line that tells what came of a path.
fn put_line<W: Write>(made: Made, path: &str, out: &mut W) -> Result<(), CannotWrite>
    ensures { OnOk result (Appends (W.contents out.old) (W.contents out.new) (line_of made path.now)) }
{
    let path = path.as_bytes();
    match made {
        Made::New => put_parts(out, &[b"made ", path, b"\n"]),
        Made::Same => put_parts(out, &[b"left ", path, b"\n"]),
        Made::Other => put_parts(out, &[b"left ", path, b": it differs\n"]),
    }
}

/// Makes a thing, where nothing stands under its path.
fn made_of<F: NewFolder>(thing: &Thing<'_>, folder: &mut F) -> Result<Made, NotMade>
    ensures ok { IfOk result (λ how. Makes (F.made folder.old) (F.made folder.new) (made_by how (thing_made thing.now))) }
    ensures nothing { OnErr result (F.made folder.new ≡ F.made folder.old) }
{
    folder.make(thing)
}

/// Makes a thing, and tells what came of it.
pub fn make_one<F: NewFolder, W: Write>(
    thing: Thing<'_>,
    folder: &mut F,
    out: &mut W,
) -> Result<(), InitFault>
    ensures { OnOk result (TellsTrue (thing_made thing.entry) (F.made folder.old) (F.made folder.new) (W.contents out.old) (W.contents out.new)) }
{
    let Ok(made) = made_of(&thing, folder) else {
        return Err(InitFault::NotMade(thing.path));
    };
    put_line(made, thing.path.as_str(), out)?;
    Ok(())
}

/// Where a plant is made, and what its files have.
#[derive(Clone, Copy)]
pub struct PlantOrder<'a> {
    pub alloc: Global,
    pub folder: &'a str,
    pub contents: Contents<'a>,
}

/// The path of a file in a folder.
fn path_in(alloc: Global, folder: &str, name: &str) -> Result<String, AllocError>
    ensures { IfOk result (λ path. string_bytes path ≡ folder.now ++ (codes "/" ++ name.now)) }
{
    format!(in alloc; "{folder}/{name}")
}

/// A file of a plant with these bytes, as it is to be made; without bytes it is a folder.
fn thing_with<'a>(
    order: &PlantOrder<'a>,
    file: PlantFile,
    bytes: Option<&'a [u8]>,
) -> Result<Thing<'a>, AllocError>
    ensures { IfOk result (λ thing. thing_made thing ≡ with_bytes order.now file (option_map (λ b. b.now) bytes.entry)) }
{
    let name = file.name();
    let path = path_in(order.alloc, order.folder, name)?;
    let mode = file.mode();
    Ok(Thing { path, mode, bytes })
}

/// A file of a plant, as it is to be made, if the plant is to have it.
fn thing_of<'a>(order: &PlantOrder<'a>, file: PlantFile) -> Result<Option<Thing<'a>>, AllocError>
    ensures { IfOk result (λ thing. option_map thing_made thing ≡ thing_in order.now file) }
{
    match order.contents.wanted(file) {
        Wanted::Nothing => Ok(None),
        Wanted::Folder => Ok(Some(thing_with(order, file, None)?)),
        Wanted::File(bytes) => Ok(Some(thing_with(order, file, Some(bytes))?)),
    }
}

/// Makes a thing, if there is one, and tells what came of it.
fn make_if<F: NewFolder, W: Write>(
    thing: Option<Thing<'_>>,
    folder: &mut F,
    out: &mut W,
) -> Result<(), InitFault>
    ensures { OnOk result (TellsAllTrue (one_or_none (option_map thing_made thing.entry)) (F.made folder.old) (F.made folder.new) (W.contents out.old) (W.contents out.new)) }
{
    match thing {
        Some(thing) => make_one(thing, folder, out),
        None => Ok(()),
    }
}

/// Makes these files and folders of a plant, as far as the plant is to have them, in their order, and tells of each.
fn make_files<F: NewFolder, W: Write>(
    order: &PlantOrder<'_>,
    files: &[PlantFile],
    folder: &mut F,
    out: &mut W,
) -> Result<(), InitFault>
    ensures { OnOk result (TellsAllTrue (flat_map (things_of order.now) files.now) (F.made folder.old) (F.made folder.new) (W.contents out.old) (W.contents out.new)) }
{
    let Some((first, rest)) = files.split_first() else {
        return Ok(());
    };
    let thing = thing_of(order, *first)?;
    make_if(thing, folder, out)?;
    make_files(order, rest, folder, out)
}

/// Makes the files and folders of a plant whose folder stands, in their order, and tells of each: what stands already is left as it is. The
/// first that can't be made ends it.
pub fn make_plant<F: NewFolder, W: Write>(
    order: &PlantOrder<'_>,
    folder: &mut F,
    out: &mut W,
) -> Result<(), InitFault>
    ensures { OnOk result (TellsAllTrue (plant_things order.now) (F.made folder.old) (F.made folder.new) (W.contents out.old) (W.contents out.new)) }
{
    make_files(order, &PlantFile::ALL, folder, out)
}
