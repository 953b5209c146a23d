//! What the command lines of `init`, `create`, `serve` and `run` ask for: options that go together are one value.

ghost use Rattle.std.specs.Prelude.{◌≡◌, IfOk, IfErr, IsErr, option_map};
ghost use Rattle.arguments.specs.Inits.{are_members, IsAllOf, LacksOne};
ghost use Rattle.arguments.specs.Plans.{IsLayoutAlone, IsUnpaired, made_in};

use ballots::Member;
use log_terms::LogTerms;
use tape_frames::Version;

/// What the command line of `create` asks for.
#[derive(Clone, Copy)]
pub struct CreatePlan<'a> {
    /// The path of the configuration.
    pub config: &'a str,
    /// The layout in which the row file is made, by the version that it has rows of.
    pub layout: Version,
}

/// A tape that is offered for a number.
#[derive(Clone, Copy)]
pub struct TapeOffer<'a> {
    pub number: u32,
    /// The path of the tape.
    pub path: &'a str,
}

/// What the command line of `serve` asks for.
#[derive(Clone, Copy)]
pub struct Plan<'a> {
    /// The path of the configuration.
    pub config: &'a str,
    /// How many turns the station takes.
    pub turns: u32,
    /// The layout in which the tables of its saved rows are made first, by the version that it has rows of, where they
    /// are to be made.
    pub create: Option<Version>,
    /// What is offered first, if anything is.
    pub offer: Option<TapeOffer<'a>>,
    /// The number that is withdrawn then, if one is.
    pub withdraw: Option<u32>,
    /// The number whose entry is sought at last, if one is.
    pub seek: Option<u32>,
}

/// What the command line of `run` asks for.
#[derive(Clone, Copy)]
pub struct RunPlan<'a> {
    /// The path of the configuration.
    pub config: &'a str,
    /// The layout in which the tables of its saved rows are made first, by the version that it has rows of, where they
    /// are to be made.
    pub create: Option<Version>,
    /// How much is told, and how.
    pub log: LogTerms,
}

/// Which members' plants are made.
#[derive(Clone, Copy, PartialEq, Eq)]
pub enum Members {
    /// That of this member.
    One(Member),
    /// Those of all members.
    All,
}

/// Which key the plants that are made have.
#[derive(Clone, Copy)]
pub enum KeyAsked<'a> {
    /// That of the plant that came before; none where there is no such plant, or it has none.
    Same,
    /// The one in the file at this path.
    File(&'a str),
    /// One that is drawn.
    New,
}

/// What the command line of `init` asks for, where no plant came before.
#[derive(Clone, Copy)]
pub struct InitPlan<'a> {
    /// The path of the plant's folder; with all members that of the folder in which theirs are made.
    pub folder: &'a str,
    pub circuit: u16,
    pub members: Members,
    /// Where all stations listen, as a list.
    pub stations: &'a str,
    /// The paths of the code table and of the widths.
    pub table: &'a str,
    pub widths: &'a str,
    pub key: KeyAsked<'a>,
}

/// What it asks for where one came before: what is not named is as there.
#[derive(Clone, Copy)]
pub struct RenewPlan<'a> {
    pub folder: &'a str,
    pub circuit: u16,
    /// The folder of the plant that came before.
    pub old: &'a str,
    pub members: Option<Members>,
    pub stations: Option<&'a str>,
    pub table: Option<&'a str>,
    pub widths: Option<&'a str>,
    pub key: KeyAsked<'a>,
}

/// What of a line does not go together.
#[derive(Clone, Copy, PartialEq, Eq)]
pub enum Mismatch {
    /// A number without a tape, or a tape without a number.
    Unpaired,
    /// A layout of saved rows that are not to be made.
    LayoutAlone,
    /// Tapes with a `--` among them.
    TapesApart,
    /// A plant that nothing came before, without a member.
    NoMembers,
    /// Without the stations of its circuit.
    NoStations,
    /// Without a code table or widths.
    NoSetting,
}

/// The tape that is offered, if both its number and its path are given. The one without the other is refused.
pub(crate) fn offer_of<'a>(
    number: Option<u32>,
    tape: Option<&'a str>,
) -> Result<Option<TapeOffer<'a>>, Mismatch>
    ensures number { IfOk result (λ offer. option_map (λ o. o.number) offer ≡ number) }
    ensures path { IfOk result (λ offer. option_map (λ o. o.path.now) offer ≡ option_map (λ p. p.now) tape.entry) }
    ensures refused { IfErr result (λ mismatch. IsUnpaired number tape.entry × (mismatch ≡ Mismatch.Unpaired)) }
{
    match (number, tape) {
        (Some(number), Some(path)) => Ok(Some(TapeOffer { number, path })),
        (None, None) => Ok(None),
        (Some(_), None) | (None, Some(_)) => Err(Mismatch::Unpaired),
    }
}

/// The version that the saved rows are made in, if they are made: version 1 where no layout is named. A layout of rows
/// that are not made is refused.
pub(crate) fn creation_of(
    create: bool,
    layout: Option<Version>,
) -> Result<Option<Version>, Mismatch>
    ensures made { IfOk result (λ made. made ≡ made_in create layout) }
    ensures alone { IsLayoutAlone create layout → IsErr result }
    ensures refused { IfErr result (λ mismatch. IsLayoutAlone create layout × (mismatch ≡ Mismatch.LayoutAlone)) }
{
    match (create, layout) {
        (true, Some(version)) => Ok(Some(version)),
        (true, None) => Ok(Some(Version::One)),
        (false, None) => Ok(None),
        (false, Some(_)) => Err(Mismatch::LayoutAlone),
    }
}

/// The members whose plants are made, where the line says so.
pub(crate) fn members_of(member: Option<Member>, all: bool) -> Option<Members>
    ensures { result ≡ are_members member all }
{
    match (all, member) {
        (true, _) => Some(Members::All),
        (false, Some(member)) => Some(Members::One(member)),
        (false, None) => None,
    }
}

/// What a line names of what plants are made of.
#[derive(Clone, Copy)]
pub(crate) struct Named<'a> {
    pub(crate) members: Option<Members>,
    pub(crate) stations: Option<&'a str>,
    pub(crate) table: Option<&'a str>,
    pub(crate) widths: Option<&'a str>,
}

/// The same, where all of it is named.
#[derive(Clone, Copy)]
pub(crate) struct AllNamed<'a> {
    pub(crate) members: Members,
    pub(crate) stations: &'a str,
    pub(crate) table: &'a str,
    pub(crate) widths: &'a str,
}

/// What plants are made of that nothing came before: all of it has to be named.
pub(crate) fn all_of<'a>(named: &Named<'a>) -> Result<AllNamed<'a>, Mismatch>
    ensures ok { IfOk result (λ all. IsAllOf named.now all) }
    ensures refused { IfErr result (λ mismatch. LacksOne named.now mismatch) }
{
    let Some(members) = named.members else {
        return Err(Mismatch::NoMembers);
    };
    let Some(stations) = named.stations else {
        return Err(Mismatch::NoStations);
    };
    let Some(table) = named.table else {
        return Err(Mismatch::NoSetting);
    };
    let Some(widths) = named.widths else {
        return Err(Mismatch::NoSetting);
    };
    Ok(AllNamed {
        members,
        stations,
        table,
        widths,
    })
}

/// Which key is asked for. The two are not named on one line.
pub(crate) fn key_of<'a>(file: Option<&'a str>, is_new: bool) -> KeyAsked<'a> {
    match file {
        Some(path) => KeyAsked::File(path),
        None if is_new => KeyAsked::New,
        None => KeyAsked::Same,
    }
}
