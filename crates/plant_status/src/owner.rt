//! Whose a status is, by what its text begins with.

ghost use Rattle.std.specs.Prelude.{◌≡◌, ◌==◌, IfOk, string_bytes};
ghost use Rattle.std.specs.List.{list_all};
ghost use Rattle.plant_status.specs.Owners.{may_be_replaced, owner_text};

use std::alloc::{AllocError, Global};

/// The station whose statuses stand in a file.
#[derive(Clone, Copy)]
pub struct StatusOwner {
    pub member: u8,
    /// How many members its circuit has.
    pub count: u8,
    pub circuit: u16,
}

/// What each status of a station begins with, whatever the layout of its rows.
pub fn owner_text(alloc: Global, owner: StatusOwner) -> Result<String, AllocError>
    ensures { IfOk result (λ t. string_bytes t ≡ owner_text owner) }
{
    let StatusOwner {
        member,
        count,
        circuit,
    } = owner;
    format!(in alloc; "station {member} of {count} circuit {circuit} ")
}

/// Whether each byte is zero.
fn are_zeros(bytes: &[u8]) -> bool
    ensures { result ≡ list_all (λ byte. byte == 0) bytes.now }
{
    bytes.iter().all(|byte| *byte == 0)
}

/// Whether a file that begins with these bytes may be replaced by a status of the station whose statuses begin with this text. It is one, or holds
/// nothing but zeros, if anything: a power cut may leave a status so.
pub fn may_be_replaced(begin: &[u8], owner: &str) -> bool
    ensures { result ≡ may_be_replaced owner.now begin.now }
{
    begin.starts_with(owner.as_bytes()) || are_zeros(begin)
}
