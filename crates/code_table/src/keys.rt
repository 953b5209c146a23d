//! One entry of a code table as a TOML document has it.

ghost use Rattle.std.specs.Prelude.{◌≡◌, ◌≤◌, IfSome, option_copied, option_map};
ghost use Rattle.toml.specs.Data.{get_member};
ghost use Rattle.toml.specs.View.{view, array_view, table_view};
ghost use Rattle.code_table.specs.Entries.{integer_at, text_at, array_at, keys_in, keys_of, frame_of};

use toml::value::Array;
use toml::{Table, Value};

/// The three keys of an entry as they are written.
#[derive(Drop)]
pub(crate) struct EntryKeys<'a> {
    pub frame: i64,
    pub unshift: &'a str,
    pub shift: &'a str,
}

/// The value at the key.
#[tactic(auto, using(toml::proofs::Views::table_get))]
fn value_at<'a>(keys: &'a Table, key: &str) -> Option<&'a Value>
    ensures { option_map (λ v. view v.now) result ≡ get_member key.now (table_view keys.now) }
{
    keys.get(key)
}

/// The whole number at the key.
#[tactic(auto, unfolding(crate::specs::Entries::integer_at))]
fn integer_at(keys: &Table, key: &str) -> Option<i64>
    ensures { result ≡ integer_at key.now (table_view keys.now) }
{
    match value_at(keys, key) {
        Some(value) => value.as_integer(),
        None => None,
    }
}

/// The text at the key.
#[tactic(auto, unfolding(crate::specs::Entries::text_at))]
fn text_at<'a>(keys: &'a Table, key: &str) -> Option<&'a str>
    ensures { option_copied result ≡ text_at key.now (table_view keys.now) }
{
    match value_at(keys, key) {
        Some(value) => value.as_str(),
        None => None,
    }
}

/// The array at the key.
#[tactic(auto, unfolding(crate::specs::Entries::array_at))]
pub(crate) fn array_at<'a>(keys: &'a Table, key: &str) -> Option<&'a Array>
    ensures { option_map (λ a. array_view a.now) result ≡ array_at key.now (table_view keys.now) }
{
    match value_at(keys, key) {
        Some(value) => value.as_array(),
        None => None,
    }
}

/// The three keys of a table, where all are there and of their types.
#[tactic(auto, unfolding(crate::specs::Entries::keys_in))]
fn keys_in(keys: &Table) -> Option<EntryKeys<'_>>
    ensures { option_map (λ w. record { frame = w.frame; unshift = w.unshift.now; shift = w.shift.now }) result ≡ keys_in (table_view keys.now) }
{
    Some(EntryKeys {
        frame: integer_at(keys, "frame")?,
        unshift: text_at(keys, "unshift")?,
        shift: text_at(keys, "shift")?,
    })
}

/// An entry as it is written, where it is a table with the three keys.
#[tactic(auto, unfolding(crate::specs::Entries::keys_of))]
pub(crate) fn keys_of(code: &Value) -> Option<EntryKeys<'_>>
    ensures { option_map (λ w. record { frame = w.frame; unshift = w.unshift.now; shift = w.shift.now }) result ≡ keys_of (view code.now) }
{
    match code.as_table() {
        Some(keys) => keys_in(keys),
        None => None,
    }
}

/// A frame is 0 to 63.
#[tactic(auto, unfolding(crate::specs::Entries::frame_of))]
pub(crate) fn frame_of(number: i64) -> Option<u8>
    ensures value { result ≡ frame_of number }
    ensures small { IfSome result (λ frame. frame ≤ 63) }
{
    if 0 <= number && number <= 63 {
        Some(number as u8)
    } else {
        None
    }
}
