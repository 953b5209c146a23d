//! The files and folders of a plant.

ghost use Rattle.std.specs.Prelude.{◌≡◌};
ghost use Rattle.init_command.specs.Files.{name_in_plant, mode_of};

/// Who may use a folder that is made: its owner, and its group may look into it.
pub const FOLDER_MODE: u32 = 0o750;

/// Who may use a file: its owner, and its group may read it.
const FILE_MODE: u32 = 0o640;

/// Who may use the file of the key: its owner alone.
const KEY_MODE: u32 = 0o600;

/// A file or a folder of a plant that `init` makes.
#[derive(Clone, Copy, PartialEq, Eq)]
pub enum PlantFile {
    Offers,
    Releases,
    Table,
    Widths,
    Key,
    /// What went out at the plant that came before.
    Before,
    Configuration,
}

impl PlantFile {
    /// All, in the order in which they are made. The configuration is the last: without it a folder is no plant.
    pub const ALL: [PlantFile; 7] = [
        PlantFile::Offers,
        PlantFile::Releases,
        PlantFile::Table,
        PlantFile::Widths,
        PlantFile::Key,
        PlantFile::Before,
        PlantFile::Configuration,
    ];

    /// Its name in the folder of the plant.
    pub fn name(self) -> &'static str
        ensures { result.now ≡ name_in_plant self }
    {
        match self {
            PlantFile::Offers => "offers",
            PlantFile::Releases => "releases",
            PlantFile::Table => "codes.toml",
            PlantFile::Widths => "widths.toml",
            PlantFile::Key => "circuit.key",
            PlantFile::Before => "before.txt",
            PlantFile::Configuration => "station.toml",
        }
    }

    /// Who may use it at most. The host's own mask may take some of that away.
    pub fn mode(self) -> u32
        ensures { result ≡ mode_of self }
    {
        match self {
            PlantFile::Offers | PlantFile::Releases => FOLDER_MODE,
            PlantFile::Key => KEY_MODE,
            _ => FILE_MODE,
        }
    }
}
