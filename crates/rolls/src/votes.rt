//! Which numbers of a page have a vote.

ghost use Rattle.std.specs.Prelude.{◌≡◌, ◌≤◌, ◌<◌, ◌+◌, ◌==◌, ◌&&◌, ℕ, length};
ghost use Rattle.std.specs.Int.{bit_at};
ghost use Rattle.protocol.specs.Limits.{is_number};
ghost use Rattle.packets.specs.Grammar.{IsBytes};
ghost use Rattle.gone_out.specs.Numbers.{has};
ghost use Rattle.gone_out.specs.Files.{IsNumber};
ghost use Rattle.rolls.specs.Pages.{page_numbers, page_bytes, page_of, numbers_on};
ghost use Rattle.rolls.specs.Votes.{AreVotes, bit_of, has_vote, set_below, how_many};

use crate::bits::has_bit;
use crate::page::{PAGE_BYTES, PAGE_NUMBERS, Page};
use arrayvec::ArrayVec;
use ballots::Number;
use gone_out::Numbers;
use std::marker::Model;

/// Which numbers of a page have a vote at a station: a bit for each, and no bit is set that stands for no number. Clauses see the page
/// and the bytes.
#[derive(Drop)]
pub struct Votes {
    pub(crate) page: Page,
    pub(crate) bytes: ArrayVec<u8, PAGE_BYTES>,
}

impl Model for Votes {
    ghost use Rattle.rolls.specs.Votes.{Votes as VotesValue, AreVotes};

    ghost Value = { VotesValue };

    ghost view = { λ v. record { page = v.page; bytes = v.bytes.items } };

    ghost invariant = { λ v. AreVotes (record { page = v.page; bytes = v.bytes.items }) };
}

/// Whether this is a number, and among these.
fn is_among(numbers: &Numbers, value: u32) -> bool
    ensures { result ≡ (is_number value && has numbers.now value) }
{
    match Number::new(value) {
        Some(number) => numbers.contains(number),
        None => false,
    }
}

/// A bit for each of eight numbers, from this one on.
fn byte_of(numbers: &Numbers, first: u32) -> u8
    requires { first < 1007616 }
    ensures { (k : ℕ) → k < 8 → (bit_at result k == 1) ≡ (is_number (first + k) && has numbers.now (first + k)) }
{
    let mut byte = 0u8;
    for k in 0..8u32 {
        byte |= u8::from(is_among(numbers, first + k)) << k;
    }
    byte
}

/// A bit for each number of a page, from its first place on.
fn bits_of(numbers: &Numbers, first: u32) -> ArrayVec<u8, PAGE_BYTES>
    requires { first < 999425 }
    ensures many { length result.items ≡ page_bytes }
    ensures small { IsBytes result.items }
    ensures bits { (place : ℕ) → place < page_numbers → bit_of result.items place ≡ (is_number (first + place) && has numbers.now (first + place)) }
{
    let mut bytes = ArrayVec::new();
    for at in 0..PAGE_BYTES {
        bytes.push(byte_of(numbers, first + 8 * at as u32));
    }
    bytes
}

/// How many bits of a page are set.
fn set_in(bytes: &[u8]) -> u16
    requires { length bytes.now ≡ page_bytes }
    ensures { result ≡ set_below bytes.now page_numbers }
{
    let mut count = 0;
    for place in 0..8 * PAGE_BYTES {
        count += u16::from(has_bit(bytes, place));
    }
    count
}

impl Votes {
    /// Those numbers of a page that are among these.
    pub fn of(page: Page, numbers: &Numbers) -> Votes
        ensures page { result.page ≡ page }
        ensures among { (n : ℕ) → IsNumber n → page_of n ≡ page → has_vote result n ≡ has numbers.now n }
    {
        let first = PAGE_NUMBERS * u32::from(page.get());
        Votes {
            page,
            bytes: bits_of(numbers, first),
        }
    }

    /// The page.
    pub fn page(&self) -> Page
        ensures { result ≡ self.now.page }
    {
        self.page
    }

    /// Whether a number lies on the page and has a vote.
    pub fn contains(&self, number: Number) -> bool
        ensures { result ≡ has_vote self.now number }
    {
        Page::of(number) == self.page
            && has_bit(
                self.bytes.as_slice(),
                (number.get() % PAGE_NUMBERS) as usize,
            )
    }

    /// How many numbers have a vote.
    pub fn count(&self) -> u16
        ensures many { result ≡ how_many self.now }
        ensures fits { result ≤ numbers_on self.now.page }
    {
        set_in(self.as_bytes())
    }

    /// The bits, from the lowest of the first byte on.
    pub fn as_bytes(&self) -> &[u8]
        ensures value { result.now ≡ self.now.bytes }
        ensures votes { AreVotes self.now }
    {
        self.bytes.as_slice()
    }
}
