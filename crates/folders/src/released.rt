//! The bytes of the file `.released` of a station, and which file is its.

ghost use Rattle.std.specs.Prelude.{◌≡◌, ◌≤◌, ◌↔◌, ◌⊎◌, ◌++◌, ◌&&◌, ℕ, Some, None, IsTrue, IfOk, IfSome, OnOk, OnErr, MatchOption, length, take, true, false, not};
ghost use Rattle.protocol.specs.Limits.{last_number};
ghost use Rattle.gone_out.specs.Files.{IsNumber, HasHead, HasRecord, record_bytes, records, file};
ghost use Rattle.gone_out.specs.Laws.{IsAmong};
ghost use Rattle.gone_out.specs.Numbers.{has};
ghost use Rattle.gone_out.specs.Origins.{IsOrigin};
ghost use Rattle.folders.specs.GoneOut.{IsFileOf, IsOwnFile, HasNoHead, HasSomeNumber, IsWithout, HaveSame};

use ballots::{Member, Number};
use gone_out::{Numbers, Origin, head, head_of, laws, numbers_of, record};
use std::alloc::{AllocError, Global};

/// The name of the file among the releases.
pub const RELEASED: &str = ".released";

/// What the file of a station holds.
#[derive(Drop)]
pub struct Kept {
    /// The numbers that have a good record.
    pub numbers: Numbers,
    /// Whether it begins with the station's head; where it does not, it is damaged.
    pub has_head: bool,
}

/// What names a station is in its ranges. The function does nothing: its contract says so.
fn are_in_ranges(circuit: u16, member: Member, count: u8)
    ensures { IsOrigin (record { circuit = circuit; member = member; count = count }) }
{
    let _ = (circuit, member.get(), count);
}

/// The same of a station.
pub(crate) fn is_station(own: &Origin)
    ensures { IsOrigin own.now }
{
    are_in_ranges(own.circuit, own.member, own.count);
}

/// Adds the number of this value to a list, where it is in the set.
fn push_member(list: &mut Vec<Number>, numbers: &Numbers, value: u32) -> Result<(), AllocError>
    ensures { OnOk result ((n : ℕ) → IsAmong list.new.items n ↔ (IsAmong list.old.items n ⊎ ((n ≡ value) × IsNumber n × IsTrue (has numbers.now n)))) }
{
    if let Some(number) = Number::new(value) {
        if numbers.contains(number) {
            list.push(number)?;
        }
    }
    Ok(())
}

/// The numbers of a set, the lowest first.
pub(crate) fn members(alloc: Global, numbers: &Numbers) -> Result<Vec<Number>, AllocError>
    ensures { IfOk result (λ v. (n : ℕ) → IsAmong v.items n ↔ (IsNumber n × IsTrue (has numbers.now n))) }
{
    let mut list = Vec::new(alloc);
    for value in 1..1_000_000 {
        push_member(&mut list, numbers, value)?;
    }
    Ok(list)
}

/// Adds the record of a number to bytes.
fn push_record(bytes: &mut Vec<u8>, own: &Origin, number: Number) -> Result<(), AllocError>
    ensures number { IsNumber number }
    ensures ok { OnOk result (bytes.new.items ≡ bytes.old.items ++ record_bytes own.now number) }
{
    let _ = number.get();
    bytes.extend_from_slice(&record(own, number))
}

/// Adds the records of numbers to bytes, in order.
fn push_records(bytes: &mut Vec<u8>, own: &Origin, numbers: &[Number]) -> Result<(), AllocError>
    ensures ok { OnOk result (bytes.new.items ≡ bytes.old.items ++ records own.now numbers.now) }
    ensures numbers { OnOk result ((n : ℕ) → IsAmong numbers.now n → IsNumber n) }
{
    for number in numbers {
        push_record(bytes, own, *number)?;
    }
    Ok(())
}

/// The records of numbers, in order.
pub(crate) fn records_of(
    alloc: Global,
    own: &Origin,
    numbers: &[Number],
) -> Result<Vec<u8>, AllocError>
    ensures bytes { IfOk result (λ v. v.items ≡ records own.now numbers.now) }
    ensures numbers { IfOk result (λ v. (n : ℕ) → IsAmong numbers.now n → IsNumber n) }
{
    let mut bytes = Vec::new(alloc);
    push_records(&mut bytes, own, numbers)?;
    Ok(bytes)
}

/// A file with a record of each of these numbers.
pub(crate) fn new_file(
    alloc: Global,
    own: &Origin,
    numbers: &Numbers,
) -> Result<Vec<u8>, AllocError>
    ensures { IfOk result (λ v. IsFileOf own.now numbers.now v.items) }
{
    laws::reads_again();
    is_station(own);
    let list = members(alloc, numbers)?;
    let mut bytes = Vec::from_slice(alloc, &head(own))?;
    push_records(&mut bytes, own, &list)?;
    Ok(bytes)
}

/// Whether there is a number in a set.
fn has_any(numbers: &Numbers) -> bool
    ensures { IsTrue result ↔ HasSomeNumber numbers.now }
{
    match Number::new(1) {
        Some(first) => numbers.range_from(first).is_some(),
        None => false,
    }
}

/// Whether bytes begin with these.
fn begin_with(bytes: &[u8], front: &[u8]) -> bool
    ensures { IsTrue result ↔ (take (length front.now) bytes.now ≡ front.now) }
{
    bytes.starts_with(front)
}

/// Whether bytes begin with the head of a station.
fn begins_with_head(bytes: &[u8], own: &Origin) -> bool
    ensures { IsTrue result ↔ HasHead bytes.now own.now }
{
    begin_with(bytes, &head(own))
}

/// Whether bytes begin with the head of no station.
fn has_no_head(bytes: &[u8]) -> bool
    ensures { IsTrue result ↔ HasNoHead bytes.now }
{
    head_of(bytes).is_none()
}

/// Whether a file with these bytes is a station's, by whether it begins with its head, and the numbers with a good record in it.
fn is_own(bytes: &[u8], numbers: &Numbers, has_head: bool) -> bool
    ensures { IsTrue result ↔ (IsTrue has_head ⊎ (HasNoHead bytes.now × HasSomeNumber numbers.now)) }
{
    has_head || (has_no_head(bytes) && has_any(numbers))
}

/// What the file with these bytes holds for a station; `None` where it is not this station's: it has the head of another, or has none, and
/// no good record of this one.
pub fn kept_of(alloc: Global, bytes: &[u8], own: &Origin) -> Result<Option<Kept>, AllocError>
    ensures own { IfOk result (λ kept. MatchOption kept (¬ IsOwnFile bytes.now own.now) (λ k. IsOwnFile bytes.now own.now)) }
    ensures numbers { IfOk result (λ kept. IfSome kept (λ k. (n : ℕ) → IsTrue (has k.numbers n) ↔ (IsNumber n × HasRecord bytes.now own.now n))) }
    ensures head { IfOk result (λ kept. IfSome kept (λ k. IsTrue k.has_head ↔ HasHead bytes.now own.now)) }
{
    let numbers = numbers_of(alloc, bytes, own)?;
    let has_head = begins_with_head(bytes, own);
    if is_own(bytes, &numbers, has_head) {
        Ok(Some(Kept { numbers, has_head }))
    } else {
        Ok(None)
    }
}

/// Adds a number to a set where it is in the first of two others, and not in the second.
fn add_without(left: &mut Numbers, numbers: &Numbers, others: &Numbers, value: u32)
    ensures same { IsNumber value → has left.old value ≡ false → has left.new value ≡ (has numbers.now value && not (has others.now value)) }
    ensures others { (n : ℕ) → ¬ (n ≡ value) → has left.new n ≡ has left.old n }
{
    if let Some(number) = Number::new(value) {
        if numbers.contains(number) && !others.contains(number) {
            left.insert(number);
        }
    }
}

/// The numbers of a set that are not in another.
pub(crate) fn without(
    alloc: Global,
    numbers: &Numbers,
    others: &Numbers,
) -> Result<Numbers, AllocError>
    ensures { IfOk result (λ left. IsWithout numbers.now others.now left) }
{
    let mut left = Numbers::new(alloc)?;
    for value in 1..1_000_000 {
        add_without(&mut left, numbers, others, value);
    }
    Ok(left)
}

/// The same numbers once more.
pub fn copy_of(alloc: Global, numbers: &Numbers) -> Result<Numbers, AllocError>
    ensures { IfOk result (λ copy. HaveSame copy numbers.now) }
{
    let none = Numbers::new(alloc)?;
    without(alloc, numbers, &none)
}
