//! Reading a recall from bytes, with no memory.

ghost use Rattle.std.specs.Prelude.{◌≡◌, ◌≤◌, length, Ok, IfOk, OnOk, OnErr};
ghost use Rattle.recalls.specs.Recalls.{Recall as RecallValue, Rise, most_recalled};
ghost use Rattle.recalls.specs.Grammar.{Spells};
ghost use Rattle.recalls.specs.Reading.{mark_at, count_of, number_at, numbers_at, recall_at, Seen};

use crate::fault::RecallFault;
use crate::recall::{MOST_RECALLED, Recall, RisingNumbers};
use crate::ticket::Ticket;
use arrayvec::ArrayVec;

/// The fewest bytes of a recall: those before the numbers, and one number.
const SHORTEST: usize = 17;

/// The bytes before the numbers.
pub(crate) const HEADER_LEN: usize = 13;

/// That the bytes are long enough, and of the mark, the version and the kind of a recall.
#[tactic(auto, unfolding(crate::specs::Reading::mark_at))]
fn check_mark(bytes: &[u8]) -> Result<(), RecallFault>
    ensures exact { result ≡ mark_at bytes.now }
    ensures long { OnOk result (17 ≤ length bytes.now) }
{
    if bytes.len() < SHORTEST {
        return Err(RecallFault::Short);
    }
    if !(bytes[0] == b'T' && bytes[1] == b'R') {
        return Err(RecallFault::BadMark);
    }
    if bytes[2] != 1 {
        return Err(RecallFault::BadVersion);
    }
    if bytes[3] != 1 {
        return Err(RecallFault::BadKind);
    }
    Ok(())
}

/// How many numbers there are, 1 to 64.
#[tactic(auto, unfolding(crate::specs::Reading::count_of))]
fn count_of(count: u8) -> Result<u8, RecallFault>
    ensures exact { result ≡ count_of count }
    ensures low { IfOk result (λ n. 1 ≤ n) }
    ensures few { IfOk result (λ n. n ≤ most_recalled) }
{
    if !(1 <= count && usize::from(count) <= MOST_RECALLED) {
        return Err(RecallFault::BadCount);
    }
    Ok(count)
}

/// The number at the front, where it is above this one.
#[tactic(auto, unfolding(crate::specs::Reading::number_at))]
fn number_of(above: u32, bytes: &[u8]) -> Result<u32, RecallFault>
    ensures exact { result ≡ number_at above bytes.now }
    ensures long { OnOk result (4 ≤ length bytes.now) }
{
    if bytes.len() < 4 {
        return Err(RecallFault::Short);
    }
    let number = u32::from_be_bytes([bytes[0], bytes[1], bytes[2], bytes[3]]);
    if !(1 <= number && number <= 999_999) {
        return Err(RecallFault::BadNumber);
    }
    if number <= above {
        return Err(RecallFault::BadOrder);
    }
    Ok(number)
}

/// So many numbers that rise, and what follows them.
fn numbers_of(count: u8, bytes: &[u8]) -> Result<(RisingNumbers, &[u8]), RecallFault>
    requires { count ≤ most_recalled }
    ensures exact { Seen (λ x. (x.0.items, x.1.now)) result (numbers_at count 0 bytes.now) }
    ensures many { IfOk result (λ x. length x.0.items ≡ count) }
    ensures rise { IfOk result (λ x. Rise 0 x.0.items) }
{
    let mut numbers = ArrayVec::new();
    let mut rest = bytes;
    let mut above = 0;
    for _ in 0..count {
        let number = number_of(above, rest)?;
        numbers.push(number);
        above = number;
        let (_, behind) = rest.split_at(4);
        rest = behind;
    }
    Ok((numbers, rest))
}

#[tactic(auto, unfolding(crate::specs::Reading::recall_at))]
fn recall_of(bytes: &[u8]) -> Result<Recall, RecallFault>
    ensures { result ≡ recall_at bytes.now }
{
    check_mark(bytes)?;
    let Some(ticket) = Ticket::read(bytes) else {
        return Err(RecallFault::BadMember);
    };
    let count = count_of(bytes[12])?;
    let (_, rest) = bytes.split_at(HEADER_LEN);
    let (numbers, rest) = numbers_of(count, rest)?;
    if !rest.is_empty() {
        return Err(RecallFault::Long);
    }
    Ok(Recall { ticket, numbers })
}

/// The recall that the bytes spell, or their first fault. It takes no memory.
pub fn decode(bytes: &[u8]) -> Result<Recall, RecallFault>
    // What is answered is spelled by the bytes.
    ensures found { IfOk result (λ r. Spells bytes.now r) }
    // What they spell is answered.
    ensures only { (r : RecallValue) → Spells bytes.now r → result ≡ Ok r }
    // A fault comes only where they spell nothing, and it is the first that is met where a recall is read from its front.
    ensures nothing { OnErr result ((r : RecallValue) → Spells bytes.now r → ⊥) }
    ensures exact { result ≡ recall_at bytes.now }
{
    recall_of(bytes)
}
