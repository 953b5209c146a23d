//! Reading a roll from bytes, with no memory.

ghost use Rattle.std.specs.Prelude.{◌≡◌, ◌≤◌, ◌<◌, length, Ok, IfOk, OnOk, OnErr};
ghost use Rattle.packets.specs.Grammar.{IsBytes};
ghost use Rattle.recalls.specs.Tickets.{u16_at};
ghost use Rattle.rolls.specs.Pages.{pages};
ghost use Rattle.rolls.specs.Kinds.{body_len};
ghost use Rattle.rolls.specs.Counts.{counts_fit};
ghost use Rattle.rolls.specs.Votes.{are_zero, only_numbers};
ghost use Rattle.rolls.specs.Bodies.{said};
ghost use Rattle.rolls.specs.Rolls.{Roll as RollValue};
ghost use Rattle.rolls.specs.Grammar.{Spells};
ghost use Rattle.rolls.specs.Reading.{Seen, mark_at, counts_in, counts_at, page_at, pad_at, asked_page_at, votes_at, told_at, body_at, roll_at};

use crate::bits::has_bit;
use crate::body::{ASK_LEN, RollBody, RollKind};
use crate::counts::Counts;
use crate::fault::RollFault;
use crate::page::{PAGE_BYTES, PAGES, Page, numbers_on};
use crate::roll::Roll;
use crate::votes::Votes;
use arrayvec::ArrayVec;
use recalls::Ticket;

/// The bytes before the body.
pub(crate) const HEADER_LEN: usize = 12;

/// That the bytes are as long as a header, and of the mark and the version of a roll.
#[tactic(auto, unfolding(crate::specs::Reading::mark_at))]
fn check_mark(bytes: &[u8]) -> Result<(), RollFault>
    ensures exact { result ≡ mark_at bytes.now }
    ensures long { OnOk result (12 ≤ length bytes.now) }
{
    if bytes.len() < HEADER_LEN {
        return Err(RollFault::Short);
    }
    if !(bytes[0] == b'T' && bytes[1] == b'R') {
        return Err(RollFault::BadMark);
    }
    if bytes[2] != 1 {
        return Err(RollFault::BadVersion);
    }
    Ok(())
}

/// The number of the first two bytes.
fn first_count(bytes: &[u8]) -> u16
    requires { 2 ≤ length bytes.now }
    ensures { result ≡ u16_at bytes.now 0 }
{
    u16::from_be_bytes([bytes[0], bytes[1]])
}

/// A number of two bytes for each page.
fn counts_in(bytes: &[u8]) -> ArrayVec<u16, PAGES>
    requires { 246 ≤ length bytes.now }
    ensures { result.items ≡ counts_in pages bytes.now }
{
    let mut counts = ArrayVec::new();
    let mut rest = bytes;
    for _ in 0..PAGES {
        counts.push(first_count(rest));
        let (_, behind) = rest.split_at(2);
        rest = behind;
    }
    counts
}

/// Whether each count is at most the numbers of its page.
fn do_fit(counts: &[u16]) -> bool
    ensures { result ≡ counts_fit 0 counts.now }
{
    let mut page = 0;
    for count in counts {
        if *count > numbers_on(page) {
            return false;
        }
        page += 1;
    }
    true
}

#[tactic(auto, unfolding(crate::specs::Reading::counts_at))]
fn counts_of(bytes: &[u8]) -> Result<Counts, RollFault>
    requires { 246 ≤ length bytes.now }
    ensures { result ≡ counts_at bytes.now }
{
    let counts = counts_in(bytes);
    if do_fit(counts.as_slice()) {
        Ok(Counts { counts })
    } else {
        Err(RollFault::BadCount)
    }
}

#[tactic(auto, unfolding(crate::specs::Reading::page_at))]
fn page_of(bytes: &[u8]) -> Result<Page, RollFault>
    requires { 1 ≤ length bytes.now }
    ensures { result ≡ page_at bytes.now }
{
    match Page::new(bytes[0]) {
        Some(page) => Ok(page),
        None => Err(RollFault::BadPage),
    }
}

fn are_zero(bytes: &[u8]) -> bool
    ensures { result ≡ are_zero bytes.now }
{
    for byte in bytes {
        if *byte != 0 {
            return false;
        }
    }
    true
}

/// That so many bytes are 0.
#[tactic(auto, unfolding(crate::specs::Reading::pad_at))]
fn check_pad(bytes: &[u8], count: usize) -> Result<(), RollFault>
    requires { count ≤ length bytes.now }
    ensures { result ≡ pad_at count bytes.now }
{
    let (pad, _) = bytes.split_at(count);
    if !are_zero(pad) {
        return Err(RollFault::BadPad);
    }
    Ok(())
}

/// The page that is asked for, behind which nothing stands but zeros.
#[tactic(auto, unfolding(crate::specs::Reading::asked_page_at))]
fn asked_page_of(bytes: &[u8]) -> Result<Page, RollFault>
    requires { 5 ≤ length bytes.now }
    ensures { result ≡ asked_page_at bytes.now }
{
    let page = page_of(bytes)?;
    let (_, behind) = bytes.split_at(1);
    check_pad(behind, ASK_LEN - 1)?;
    Ok(page)
}

/// Whether no bit is set that stands for no number: number 0 lies on the first page, and on the last one 576 numbers and none behind.
#[tactic(auto, unfolding(crate::specs::Votes::only_numbers))]
fn only_numbers(page: Page, bytes: &[u8]) -> bool
    requires { length bytes.now ≡ 1024 }
    ensures exact { result ≡ only_numbers page bytes.now }
    ensures below { page < pages }
{
    match page.get() {
        0 => !has_bit(bytes, 0),
        122 => {
            let (_, behind) = bytes.split_at(72);
            are_zero(behind)
        }
        _ => true,
    }
}

/// A copy of the bits of a page.
fn copied(bytes: &[u8]) -> ArrayVec<u8, PAGE_BYTES>
    requires { length bytes.now ≡ 1024 }
    ensures same { result.items ≡ bytes.now }
    ensures small { IsBytes result.items }
{
    let mut copy = ArrayVec::new();
    for byte in bytes {
        copy.push(*byte);
    }
    copy
}

#[tactic(auto, unfolding(crate::specs::Reading::votes_at))]
fn votes_of(bytes: &[u8]) -> Result<Votes, RollFault>
    requires { 1025 ≤ length bytes.now }
    ensures { result ≡ votes_at bytes.now }
{
    let page = page_of(bytes)?;
    let (_, rest) = bytes.split_at(1);
    let (bits, _) = rest.split_at(PAGE_BYTES);
    if !only_numbers(page, bits) {
        return Err(RollFault::BadBits);
    }
    Ok(Votes {
        page,
        bytes: copied(bits),
    })
}

/// What is told in bytes that are long enough for it.
fn told_of(kind: RollKind, bytes: &[u8]) -> Result<RollBody, RollFault>
    requires { body_len kind ≤ length bytes.now }
    ensures { Seen said result (told_at kind bytes.now) }
{
    match kind {
        RollKind::CountsAsked => {
            check_pad(bytes, ASK_LEN)?;
            Ok(RollBody::CountsAsked)
        }
        RollKind::Counts => Ok(RollBody::Counts(counts_of(bytes)?)),
        RollKind::PageAsked => Ok(RollBody::PageAsked(asked_page_of(bytes)?)),
        RollKind::Page => Ok(RollBody::Page(votes_of(bytes)?)),
    }
}

/// The body of this kind that the bytes are, and no more.
#[tactic(auto, unfolding(crate::specs::Reading::body_at))]
fn body_of(kind: RollKind, bytes: &[u8]) -> Result<RollBody, RollFault>
    ensures { Seen said result (body_at kind bytes.now) }
{
    let len = kind.body_len();
    if bytes.len() < len {
        return Err(RollFault::Short);
    }
    let body = told_of(kind, bytes)?;
    if bytes.len() > len {
        return Err(RollFault::Long);
    }
    Ok(body)
}

#[tactic(auto, unfolding(crate::specs::Reading::roll_at, crate::specs::Reading::kind_at))]
fn roll_of(bytes: &[u8]) -> Result<Roll, RollFault>
    ensures { result ≡ roll_at bytes.now }
{
    check_mark(bytes)?;
    let Some(kind) = RollKind::of_byte(bytes[3]) else {
        return Err(RollFault::BadKind);
    };
    let Some(ticket) = Ticket::read(bytes) else {
        return Err(RollFault::BadMember);
    };
    let (_, rest) = bytes.split_at(HEADER_LEN);
    let body = body_of(kind, rest)?;
    Ok(Roll { ticket, body })
}

/// The roll that the bytes spell, or their first fault. It takes no memory.
pub fn decode(bytes: &[u8]) -> Result<Roll, RollFault>
    // What is answered is spelled by the bytes.
    ensures found { IfOk result (λ r. Spells bytes.now r) }
    // What they spell is answered.
    ensures only { (r : RollValue) → Spells bytes.now r → result ≡ Ok r }
    // A fault comes only where they spell nothing, and it is the first that is met where a roll is read from its front.
    ensures nothing { OnErr result ((r : RollValue) → Spells bytes.now r → ⊥) }
    ensures exact { result ≡ roll_at bytes.now }
{
    roll_of(bytes)
}
