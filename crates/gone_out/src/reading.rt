//! Reading the file: whose it is, and which numbers have a good record.

ghost use Rattle.std.specs.Prelude.{◌≡◌, ◌≤◌, ◌<◌, ◌+◌, ◌*◌, ◌↔◌, ◌⊎◌, ℕ, Some, None, IsTrue, IfOk, IfSome, length, take};
ghost use Rattle.protocol.specs.Limits.{last_number};
ghost use Rattle.gone_out.specs.declared.origin.Origin.{Origin as OriginValue};
ghost use Rattle.gone_out.specs.Origins.{IsOrigin};
ghost use Rattle.gone_out.specs.Files.{IsNumber, HasHead, IsRecordAt, HasRecord, whole_part};
ghost use Rattle.gone_out.specs.Numbers.{has};
ghost use Rattle.std.specs.Int.{w32, to_be_bytes};

use crate::numbers::Numbers;
use crate::origin::Origin;
use crate::writing::{HEAD_LEN, RECORD_LEN, head, record};
use ballots::{Member, Number};
use std::alloc::{AllocError, Global};

/// Whether the bytes begin with these.
fn begin_with(bytes: &[u8], front: &[u8]) -> bool
    ensures { IsTrue result ↔ (take (length front.now) bytes.now ≡ front.now) }
{
    bytes.starts_with(front)
}

/// The station that the bytes name where they are long enough for a head, whether they begin with its head or not.
fn named(bytes: &[u8]) -> Option<Origin>
    ensures { (o : OriginValue) → IsOrigin o → HasHead bytes.now o → result ≡ Some o }
{
    if bytes.len() < HEAD_LEN {
        return None;
    }
    let circuit = u16::from_be_bytes([bytes[8], bytes[9]]);
    let member = Member::new(bytes[10])?;
    Some(Origin {
        circuit,
        member,
        count: bytes[11],
    })
}

/// The circuit number at the front of the bytes.
fn number_in(bytes: &[u8]) -> Option<Number>
    ensures { (n : ℕ) → IsNumber n → take 4 bytes.now ≡ to_be_bytes w32 n → result ≡ Some n }
{
    if bytes.len() < 4 {
        return None;
    }
    Number::new(u32::from_be_bytes([bytes[0], bytes[1], bytes[2], bytes[3]]))
}

/// Whose file this is: the station whose head the bytes begin with. `None` where they begin with none: the file is empty, cut short or
/// damaged.
pub fn head_of(bytes: &[u8]) -> Option<Origin>
    ensures some { IfSome result (λ o. HasHead bytes.now o) }
    ensures none { result ≡ None → (o : OriginValue) → IsOrigin o → ¬ (HasHead bytes.now o) }
{
    let origin = named(bytes)?;
    if begin_with(bytes, &head(&origin)) {
        Some(origin)
    } else {
        None
    }
}

/// The number whose record stands at a place.
fn number_at(bytes: &[u8], place: usize, origin: &Origin) -> Option<Number>
    requires { 16 + 8 * place + 8 ≤ length bytes.now }
    ensures some { IfSome result (λ n. IsRecordAt bytes.now origin.now n place) }
    ensures number { IfSome result IsNumber }
    ensures none { result ≡ None → (n : ℕ) → IsNumber n → ¬ (IsRecordAt bytes.now origin.now n place) }
{
    let (_, rest) = bytes.split_at(HEAD_LEN + RECORD_LEN * place);
    let number = number_in(rest)?;
    if begin_with(rest, &record(origin, number)) {
        Some(number)
    } else {
        None
    }
}

/// Adds the number whose record stands at a place, if one does.
fn add_at(numbers: &mut Numbers, bytes: &[u8], place: usize, origin: &Origin)
    requires { 16 + 8 * place + 8 ≤ length bytes.now }
    ensures { (n : ℕ) → IsTrue (has numbers.new n) ↔ (IsTrue (has numbers.old n) ⊎ (IsNumber n × IsRecordAt bytes.now origin.now n place)) }
{
    if let Some(number) = number_at(bytes, place, origin) {
        numbers.insert(number);
    }
}

/// The numbers whose records stand in the file of this station, behind its head whatever that is. Bad records are passed over, those of
/// another station's file among them, and so is a last one that is cut short.
pub fn numbers_of(alloc: Global, bytes: &[u8], origin: &Origin) -> Result<Numbers, AllocError>
    ensures { IfOk result (λ s. (n : ℕ) → IsTrue (has s n) ↔ (IsNumber n × HasRecord bytes.now origin.now n)) }
{
    let mut numbers = Numbers::new(alloc)?;
    for place in 0..bytes.len().saturating_sub(HEAD_LEN) / RECORD_LEN {
        add_at(&mut numbers, bytes, place, origin);
    }
    Ok(numbers)
}

/// How long a file of this length is without a last record that is cut short: to this length it is cut before a record is added. A file
/// that is shorter than a head has no records, and its head is written anew.
pub fn whole_len(len: u64) -> u64
    ensures { result ≡ whole_part len }
{
    16 + len.saturating_sub(16) / 8 * 8
}
