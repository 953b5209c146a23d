//! The files and folders of a station.

ghost use Rattle.std.specs.Prelude.{◌≡◌, ◌↔◌, IsTrue};
ghost use Rattle.station_files.specs.Files.{IsTied, IsWritten, MayBeLinked, rank, word};

/// A file or a folder of a station.
#[derive(Clone, Copy, PartialEq, Eq)]
pub enum StationFile {
    /// These three are only read.
    Configuration,
    Table,
    Widths,
    /// The row file, and what the database has beside it.
    Rows,
    Log,
    Journal,
    /// A row file before it has its name.
    Making,
    MakingLog,
    /// What a row file held whose path led to another file while its station was up, and that before it is whole.
    Kept,
    KeptLog,
    Keeping,
    /// What a circuit whose wire is sealed shares.
    Key,
    /// The status file, and the one that takes its place.
    Status,
    NextStatus,
    /// The two folders.
    Offers,
    Releases,
    /// The file of what went out.
    Released,
    /// The folder through which a file leaves the offers.
    Passage,
    /// The folders of what left them.
    Sent,
    Lost,
    Refused,
    Done,
}

/// All of them: each stands once.
pub const ALL: [StationFile; 22] = [
    StationFile::Configuration,
    StationFile::Table,
    StationFile::Widths,
    StationFile::Rows,
    StationFile::Log,
    StationFile::Journal,
    StationFile::Making,
    StationFile::MakingLog,
    StationFile::Kept,
    StationFile::KeptLog,
    StationFile::Keeping,
    StationFile::Key,
    StationFile::Offers,
    StationFile::Releases,
    StationFile::Released,
    StationFile::Passage,
    StationFile::Sent,
    StationFile::Lost,
    StationFile::Refused,
    StationFile::Done,
    StationFile::Status,
    StationFile::NextStatus,
];

impl StationFile {
    /// Its number: no two have the same.
    pub fn rank(self) -> u8
        ensures { result ≡ rank self }
    {
        match self {
            StationFile::Configuration => 0,
            StationFile::Table => 1,
            StationFile::Widths => 2,
            StationFile::Rows => 3,
            StationFile::Log => 4,
            StationFile::Journal => 5,
            StationFile::Making => 6,
            StationFile::MakingLog => 7,
            StationFile::Kept => 8,
            StationFile::KeptLog => 9,
            StationFile::Keeping => 10,
            StationFile::Key => 11,
            StationFile::Status => 12,
            StationFile::NextStatus => 13,
            StationFile::Offers => 14,
            StationFile::Releases => 15,
            StationFile::Released => 16,
            StationFile::Passage => 17,
            StationFile::Sent => 18,
            StationFile::Lost => 19,
            StationFile::Refused => 20,
            StationFile::Done => 21,
        }
    }

    /// Whether the program writes or moves it, or what is in it, or nobody else may read it. The others may be one file.
    pub fn is_written(self) -> bool
        ensures { IsTrue result ↔ IsWritten self }
    {
        match self {
            StationFile::Configuration | StationFile::Table | StationFile::Widths => false,
            StationFile::Rows
            | StationFile::Log
            | StationFile::Journal
            | StationFile::Making
            | StationFile::MakingLog
            | StationFile::Kept
            | StationFile::KeptLog
            | StationFile::Keeping
            | StationFile::Key
            | StationFile::Status
            | StationFile::NextStatus
            | StationFile::Offers
            | StationFile::Releases
            | StationFile::Released
            | StationFile::Passage
            | StationFile::Sent
            | StationFile::Lost
            | StationFile::Refused
            | StationFile::Done => true,
        }
    }

    /// Whether it lies where it does because of the two folders: it is one of them, or has its place in one.
    pub fn is_tied(self) -> bool
        ensures { IsTrue result ↔ IsTied self }
    {
        match self {
            StationFile::Offers
            | StationFile::Releases
            | StationFile::Released
            | StationFile::Passage
            | StationFile::Sent
            | StationFile::Lost
            | StationFile::Refused
            | StationFile::Done => true,
            StationFile::Configuration
            | StationFile::Table
            | StationFile::Widths
            | StationFile::Rows
            | StationFile::Log
            | StationFile::Journal
            | StationFile::Making
            | StationFile::MakingLog
            | StationFile::Kept
            | StationFile::KeptLog
            | StationFile::Keeping
            | StationFile::Key
            | StationFile::Status
            | StationFile::NextStatus => false,
        }
    }

    /// Whether a link in its place is followed. Who may write among the offers can lay one in place of what lies there.
    pub fn follows_links(self) -> bool
        ensures { IsTrue result ↔ MayBeLinked self }
    {
        match self {
            StationFile::Released
            | StationFile::Passage
            | StationFile::Sent
            | StationFile::Lost
            | StationFile::Refused
            | StationFile::Done => false,
            StationFile::Configuration
            | StationFile::Table
            | StationFile::Widths
            | StationFile::Rows
            | StationFile::Log
            | StationFile::Journal
            | StationFile::Making
            | StationFile::MakingLog
            | StationFile::Kept
            | StationFile::KeptLog
            | StationFile::Keeping
            | StationFile::Key
            | StationFile::Status
            | StationFile::NextStatus
            | StationFile::Offers
            | StationFile::Releases => true,
        }
    }

    /// What a person calls it.
    pub fn word(self) -> &'static str
        ensures { result.now ≡ word self }
    {
        match self {
            StationFile::Configuration => "the configuration",
            StationFile::Table => "the table",
            StationFile::Widths => "the widths",
            StationFile::Rows => "the row file",
            StationFile::Log => "the log of the row file",
            StationFile::Journal => "the journal of the row file",
            StationFile::Making => "the row file that is made",
            StationFile::MakingLog => "the log of the row file that is made",
            StationFile::Kept => "what is kept of the row file",
            StationFile::KeptLog => "the log of what is kept of the row file",
            StationFile::Keeping => "what is being kept of the row file",
            StationFile::Key => "the key",
            StationFile::Status => "the status file",
            StationFile::NextStatus => "the next status file",
            StationFile::Offers => "offers",
            StationFile::Releases => "releases",
            StationFile::Released => "releases/.released",
            StationFile::Passage => "offers/.circuitd",
            StationFile::Sent => "offers/sent",
            StationFile::Lost => "offers/lost",
            StationFile::Refused => "offers/refused",
            StationFile::Done => "offers/done",
        }
    }
}
