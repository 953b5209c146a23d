//! The lines of the log.

ghost use Rattle.std.specs.Prelude.{◌≡◌, Some};
ghost use Rattle.plant_log.specs.Words.{file_text, line_text, news_text};

use crate::event::LogEvent;
use ballots::Member;
use folders::{FolderFault, News};
use refusals::{RefusalText, StepRefusal};
use std::fmt;

/// A folder does not serve for a file.
#[derive(Clone, Copy)]
pub struct FileTrouble<'a> {
    /// What can't be done, as `cannot read`.
    pub what: &'a str,
    /// The name of the file.
    pub name: &'a str,
    /// Why.
    pub fault: FolderFault,
}

/// A line of the log. Names in it are as the log shows them.
#[derive(Clone, Copy)]
pub(crate) enum LogLine<'a> {
    /// What befell a number.
    Event(LogEvent),
    /// A file is no offer.
    Refused { name: &'a str, why: &'a str },
    /// A datagram shows that its sender has another configuration.
    Differs(StepRefusal),
    /// The rows of a member are of layout 1, and those of this station of layout 2.
    Older(Member),
    /// There is something to tell of the folders.
    Folders(&'a str),
    /// A folder does not serve.
    Folder { what: &'a str, fault: FolderFault },
    /// A folder does not serve for a file.
    File(FileTrouble<'a>),
}

/// What befell a folder.
pub(crate) fn news_text(news: News) -> &'static str
    ensures { result.now ≡ news_text news }
{
    match news {
        News::OtherOffers => "offers is another folder now",
        News::OtherReleases => "releases is another folder now",
        News::WrittenAnew => "a release was written anew",
    }
}

impl<'a> fmt::Display for FileTrouble<'a> {
    ghost output = { λ l. Some (file_text l.what.now l.name.now l.fault) };

    fn fmt<W: fmt::Write>(&self, f: &mut fmt::Formatter<W>) -> fmt::Result {
        write!(f, "folders: {} {}: {}", self.what, self.name, self.fault)
    }
}

impl<'a> fmt::Display for LogLine<'a> {
    ghost output = { λ l. Some (line_text l) };

    fn fmt<W: fmt::Write>(&self, f: &mut fmt::Formatter<W>) -> fmt::Result {
        match *self {
            LogLine::Event(event) => write!(f, "{event}"),
            LogLine::Refused { name, why } => write!(f, "refused {name}: {why}"),
            LogLine::Differs(refusal) => write!(f, "refused {}", RefusalText(refusal)),
            LogLine::Older(member) => write!(
                f,
                "old-version from member {}: its rows are of layout 1, these of layout 2",
                member.get()
            ),
            LogLine::Folders(what) => write!(f, "folders: {what}"),
            LogLine::Folder { what, fault } => write!(f, "folders: {what}: {fault}"),
            LogLine::File(file) => write!(f, "{file}"),
        }
    }
}
