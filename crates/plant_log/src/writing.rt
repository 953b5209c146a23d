//! Lines that are written to the log.

ghost use Rattle.std.specs.Prelude.{◌≡◌};
ghost use Rattle.streams.specs.Fronts.{AppendsFront};
ghost use Rattle.folders.specs.LogNames.{shown_name};
ghost use Rattle.plant_log.specs.Words.{event_text, file_text, folder_text, folders_text, line_text, refused_text, no_memory};
ghost use Rattle.plant_log.specs.Telling.{TellsNews, WasTold};
ghost use Rattle.plant_log.specs.Refusing.{TellsNoOffer};

use crate::event::LogEvent;
use crate::line::{FileTrouble, LogLine, news_text};
use crate::reason::ReasonText;
use folders::{FileRequest, FolderFault, News, name_of, shown_name};
use offers::OfferFault;
use std::alloc::Global;
use std::io::Write;
use streams::put_all;

/// Writes a text. That the writer fails is ignored.
#[tactic(auto, using(streams::proofs::Fronts::front_of_all))]
pub fn put_text<E: Write>(text: &str, err: &mut E)
    ensures { AppendsFront (E.contents err.old) (E.contents err.new) text.now }
{
    match put_all(err, text.as_bytes()) {
        Ok(()) => {}
        Err(_) => {}
    }
}

/// Writes that there is no memory for a line.
pub fn tell_no_memory<E: Write>(err: &mut E)
    ensures { AppendsFront (E.contents err.old) (E.contents err.new) no_memory }
{
    put_text("no memory for a line\n", err);
}

/// Writes a line, at once. That the writer fails is ignored.
pub(crate) fn tell_line<E: Write>(alloc: Global, line: &LogLine<'_>, err: &mut E)
    ensures { WasTold (line_text line.now) (E.contents err.old) (E.contents err.new) }
{
    match format!(in alloc; "{line}\n") {
        Ok(text) => put_text(text.as_str(), err),
        Err(_) => tell_no_memory(err),
    }
}

/// Writes what befell a number.
pub(crate) fn tell_event<E: Write>(alloc: Global, event: &LogEvent, err: &mut E)
    ensures { WasTold (event_text event.now) (E.contents err.old) (E.contents err.new) }
{
    tell_line(alloc, &LogLine::Event(*event), err);
}

/// Writes why the file of this name is no offer.
pub fn tell_refused<E: Write>(alloc: Global, name: &str, why: &str, err: &mut E)
    ensures { WasTold (refused_text (shown_name name.now) why.now) (E.contents err.old) (E.contents err.new) }
{
    match shown_name(alloc, name) {
        Ok(shown) => {
            let name = shown.as_str();
            tell_line(alloc, &LogLine::Refused { name, why }, err);
        }
        Err(_) => tell_no_memory(err),
    }
}

/// Writes why the file that asks for this is no offer.
pub(crate) fn tell_no_offer<E: Write>(
    alloc: Global,
    request: FileRequest,
    reason: OfferFault,
    err: &mut E,
)
    ensures { TellsNoOffer request reason (E.contents err.old) (E.contents err.new) }
{
    let why = format!(in alloc; "{}", ReasonText(reason));
    match (name_of(alloc, request), why) {
        (Ok(name), Ok(why)) => tell_refused(alloc, name.as_str(), why.as_str(), err),
        _ => tell_no_memory(err),
    }
}

/// Writes what there is to tell of the folders.
pub fn tell_folders<E: Write>(alloc: Global, what: &str, err: &mut E)
    ensures { WasTold (folders_text what.now) (E.contents err.old) (E.contents err.new) }
{
    tell_line(alloc, &LogLine::Folders(what), err);
}

/// Writes that a folder does not serve.
pub fn tell_fault<E: Write>(alloc: Global, what: &str, fault: FolderFault, err: &mut E)
    ensures { WasTold (folder_text what.now fault) (E.contents err.old) (E.contents err.new) }
{
    tell_line(alloc, &LogLine::Folder { what, fault }, err);
}

/// Writes that a folder does not serve for a file, whose name is shown as the log shows names.
pub fn tell_file<E: Write>(alloc: Global, file: &FileTrouble<'_>, err: &mut E)
    ensures { WasTold (file_text file.now.what.now (shown_name file.now.name.now) file.now.fault) (E.contents err.old) (E.contents err.new) }
{
    match shown_name(alloc, file.name) {
        Ok(shown) => {
            let file = FileTrouble {
                what: file.what,
                name: shown.as_str(),
                fault: file.fault,
            };
            tell_line(alloc, &LogLine::File(file), err);
        }
        Err(_) => tell_no_memory(err),
    }
}

/// Writes what befell the folders.
pub fn tell_news<E: Write>(alloc: Global, news: &[News], err: &mut E)
    ensures { TellsNews news.now (E.contents err.old) (E.contents err.new) }
{
    for each in news {
        tell_folders(alloc, news_text(*each), err);
    }
}
