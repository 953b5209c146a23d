//! The keys of a configuration in a TOML document.

ghost use Rattle.std.specs.Prelude.{◌≡◌, ◌≤◌, IfSome, IfOk, option_map, vec_len};
ghost use Rattle.protocol.specs.Limits.{most_members};
ghost use Rattle.toml.specs.Data.{get_member};
ghost use Rattle.toml.specs.View.{view, table_view, array_view};
ghost use Rattle.configuration.specs.Keys.{Gives, in_range, value_at, number_at, text_at, text_where, flag_at, three_paths, paths_in, lent_paths, folder_paths_in, folders_in, catches_up_in, wire_in, entries_at};
ghost use Rattle.configuration.specs.declared.fault.ConfigKey.TheVariants.{Circuit, Member as MemberKey};

use crate::fault::{ConfigFault, ConfigKey};
use ballots::Member;
use toml::value::Array;
use toml::{Table, Value};

/// The greatest number of a circuit.
const LAST_CIRCUIT: u16 = 65535;

/// The most stations of a circuit, and the last member.
const MOST: u16 = Member::LAST as u16;

/// The paths of three files.
#[derive(Clone, Copy)]
pub(crate) struct Paths<'a> {
    pub(crate) table: &'a str,
    pub(crate) widths: &'a str,
    pub(crate) rows: &'a str,
}

/// The paths of two folders, whether texts may be offered in the first, whether files come into it only by being renamed, and the path of
/// the status file, where there is to be one.
#[derive(Clone, Copy)]
pub(crate) struct FolderPaths<'a> {
    pub(crate) offers: &'a str,
    pub(crate) releases: &'a str,
    pub(crate) text: bool,
    pub(crate) renamed: bool,
    pub(crate) status: Option<&'a str>,
}

/// The value at the key of this name.
#[tactic(auto, using(toml::proofs::Views::table_get))]
pub(crate) fn value_of<'a>(keys: &'a Table, name: &str) -> Option<&'a Value>
    ensures { option_map (λ v. view v.now) result ≡ get_member name.now (table_view keys.now) }
{
    keys.get(name)
}

/// The number, where it is from the least to the most.
#[tactic(auto, unfolding(crate::specs::Keys::in_range))]
pub(crate) fn in_range(least: u16, most: u16, number: i64) -> Option<u16>
    ensures value { result ≡ in_range least most number }
    ensures low { IfSome result (λ n. least ≤ n) }
    ensures high { IfSome result (λ n. n ≤ most) }
{
    if i64::from(least) <= number && number <= i64::from(most) {
        Some(number as u16)
    } else {
        None
    }
}

/// The value at the key.
#[tactic(auto, unfolding(crate::specs::Keys::value_at))]
fn value_at(file: &Table, key: ConfigKey) -> Result<&Value, ConfigFault>
    ensures { Gives result (λ v. view v.now) (value_at key (table_view file.now)) }
{
    match value_of(file, key.name()) {
        Some(value) => Ok(value),
        None => Err(ConfigFault::Missing(key)),
    }
}

/// The whole number at the key, from the least to the most.
#[tactic(auto, unfolding(crate::specs::Keys::number_at))]
fn number_at(file: &Table, key: ConfigKey, least: u16, most: u16) -> Result<u16, ConfigFault>
    ensures value { result ≡ number_at key least most (table_view file.now) }
    ensures low { IfOk result (λ n. least ≤ n) }
    ensures high { IfOk result (λ n. n ≤ most) }
{
    let value = value_at(file, key)?;
    let number = value.as_integer().ok_or(ConfigFault::WrongType(key))?;
    in_range(least, most, number).ok_or(ConfigFault::OutOfRange(key))
}

/// The circuit's number.
pub(crate) fn circuit_at(file: &Table) -> Result<u16, ConfigFault>
    ensures { result ≡ number_at Circuit 0 65535 (table_view file.now) }
{
    number_at(file, ConfigKey::Circuit, 0, LAST_CIRCUIT)
}

/// The own member.
pub(crate) fn member_at(file: &Table) -> Result<Member, ConfigFault>
    ensures { result ≡ number_at MemberKey 1 most_members (table_view file.now) }
{
    let number = number_at(file, ConfigKey::Member, 1, MOST)?;
    Member::new(number as u8).ok_or(ConfigFault::OutOfRange(ConfigKey::Member))
}

/// The text at the key.
#[tactic(auto, unfolding(crate::specs::Keys::text_at))]
pub(crate) fn text_at(file: &Table, key: ConfigKey) -> Result<&str, ConfigFault>
    ensures { Gives result (λ t. t.now) (text_at key (table_view file.now)) }
{
    let value = value_at(file, key)?;
    match value.as_str() {
        Some(text) => Ok(text),
        None => Err(ConfigFault::WrongType(key)),
    }
}

/// The entries of the stations, as many as a circuit has members at most.
#[tactic(auto, using(crate::proofs::Entries::counted), unfolding(crate::specs::Keys::entries_at))]
pub(crate) fn entries_at(file: &Table) -> Result<&Array, ConfigFault>
    ensures value { Gives result (λ a. array_view a.now) (entries_at (table_view file.now)) }
    ensures few { IfOk result (λ a. vec_len a.now ≤ most_members) }
{
    let value = value_at(file, ConfigKey::Station)?;
    match value.as_array() {
        Some(entries) if entries.len() <= usize::from(MOST) => Ok(entries),
        Some(_) => Err(ConfigFault::OutOfRange(ConfigKey::Station)),
        None => Err(ConfigFault::WrongType(ConfigKey::Station)),
    }
}

/// The three paths.
#[tactic(auto, unfolding(crate::specs::Keys::paths_in))]
pub(crate) fn paths_in(file: &Table) -> Result<Paths<'_>, ConfigFault>
    ensures { Gives result (λ p. three_paths p.table.now p.widths.now p.rows.now) (paths_in (table_view file.now)) }
{
    Ok(Paths {
        table: text_at(file, ConfigKey::Table)?,
        widths: text_at(file, ConfigKey::Widths)?,
        rows: text_at(file, ConfigKey::Rows)?,
    })
}

/// True or false, as the key has it, or as given where it is absent.
#[tactic(auto, unfolding(crate::specs::Keys::flag_at))]
fn flag_at(keys: &Table, key: ConfigKey, default: bool) -> Result<bool, ConfigFault>
    ensures { result ≡ flag_at key default (table_view keys.now) }
{
    match value_of(keys, key.name()) {
        Some(value) => value.as_bool().ok_or(ConfigFault::WrongType(key)),
        None => Ok(default),
    }
}

/// The text at the key, where it is there.
#[tactic(auto, unfolding(crate::specs::Keys::text_where))]
fn text_where(keys: &Table, key: ConfigKey) -> Result<Option<&str>, ConfigFault>
    ensures { Gives result (λ t. option_map (λ s. s.now) t) (text_where key (table_view keys.now)) }
{
    match value_of(keys, key.name()) {
        Some(value) => match value.as_str() {
            Some(text) => Ok(Some(text)),
            None => Err(ConfigFault::WrongType(key)),
        },
        None => Ok(None),
    }
}

/// The paths in the table of the folders.
#[tactic(auto, unfolding(crate::specs::Keys::folder_paths_in))]
fn folder_paths_in(keys: &Table) -> Result<FolderPaths<'_>, ConfigFault>
    ensures { Gives result lent_paths (folder_paths_in (table_view keys.now)) }
{
    Ok(FolderPaths {
        offers: text_at(keys, ConfigKey::Offers)?,
        releases: text_at(keys, ConfigKey::Releases)?,
        text: flag_at(keys, ConfigKey::Text, true)?,
        renamed: flag_at(keys, ConfigKey::Renamed, false)?,
        status: text_where(keys, ConfigKey::Status)?,
    })
}

/// The folders, where there is a table of them.
#[tactic(auto, unfolding(crate::specs::Keys::folders_in))]
pub(crate) fn folders_in(file: &Table) -> Result<Option<FolderPaths<'_>>, ConfigFault>
    ensures { Gives result (option_map lent_paths) (folders_in (table_view file.now)) }
{
    let Some(value) = value_of(file, ConfigKey::Folders.name()) else {
        return Ok(None);
    };
    match value.as_table() {
        Some(keys) => Ok(Some(folder_paths_in(keys)?)),
        None => Err(ConfigFault::WrongType(ConfigKey::Folders)),
    }
}

/// Whether a station catches up by itself: unless the table of that, where there is one, says that this is off.
#[tactic(auto, unfolding(crate::specs::Keys::catches_up_in))]
pub(crate) fn catches_up_in(file: &Table) -> Result<bool, ConfigFault>
    ensures { result ≡ catches_up_in (table_view file.now) }
{
    let Some(value) = value_of(file, ConfigKey::CatchUp.name()) else {
        return Ok(true);
    };
    match value.as_table() {
        Some(keys) => Ok(!flag_at(keys, ConfigKey::Off, false)?),
        None => Err(ConfigFault::WrongType(ConfigKey::CatchUp)),
    }
}

/// The path of the file of keys, where there is a table of the wire: then it is to be sealed.
#[tactic(auto, unfolding(crate::specs::Keys::wire_in))]
pub(crate) fn wire_in(file: &Table) -> Result<Option<&str>, ConfigFault>
    ensures { Gives result (λ k. option_map (λ s. s.now) k) (wire_in (table_view file.now)) }
{
    let Some(value) = value_of(file, ConfigKey::Wire.name()) else {
        return Ok(None);
    };
    match value.as_table() {
        Some(keys) => Ok(Some(text_at(keys, ConfigKey::Key)?)),
        None => Err(ConfigFault::WrongType(ConfigKey::Wire)),
    }
}
