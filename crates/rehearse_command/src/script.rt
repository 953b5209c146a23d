//! What one line asks for.

ghost use Rattle.std.specs.Prelude.{◌≡◌, IfOk, OnErr, codes};
ghost use Rattle.rehearse_command.specs.ScriptWords.{version_word, written};
ghost use Rattle.rehearse_command.specs.declared.script.Order.TheVariants.{Recall, Upgrade};

use ballots::Member;
use hex::FromHexError;
use std::alloc::{AllocError, Global};
use std::str;
use tape_frames::{Tape, TapeFault, Version};

/// What one line of a script asks for.
#[derive(Drop)]
pub enum Order {
    /// The circuit has so many members, 1 to 15. It is the first line that is not ignored, and stands once.
    Members(u8),
    /// All members are in this version. It stands directly behind the members, and once.
    Wire(Version),
    /// The moment from here on, in milliseconds.
    At(u64),
    Offer { member: u8, number: u32, tape: Tape },
    Withdraw { member: u8, number: u32 },
    Seek { member: u8, number: u32 },
    Due { member: u8 },
    /// The k-th datagram ever sent, from 1, goes to its addressee.
    Deliver { k: u32 },
    Restart { member: u8 },
    /// The member goes over to version 2.
    Upgrade { member: u8 },
    Balk { member: u8, saved: bool },
    /// The member is to tell its vote for the number again to another member, or to itself.
    Recall { member: u8, number: u32, to: u8 },
}

/// Why a line asks for nothing.
#[derive(Clone, Copy, PartialEq, Eq)]
pub enum ScriptFault {
    /// An unknown word, a wrong number of words, or a number that doesn't fit.
    BadLine,
    /// The hex of an offer is not that of a tape.
    BadTape,
    OutOfMemory,
}

impl From<AllocError> for ScriptFault {
    fn from(_: AllocError) -> ScriptFault {
        ScriptFault::OutOfMemory
    }
}

/// Whether a line is passed over: it is blank, or begins with `#`.
pub fn is_ignored(line: &[u8]) -> bool {
    line.first() == Some(&b'#') || line.iter().all(|b| *b == b' ')
}

/// Whether the word is one decimal digit or more.
fn is_decimal(word: &str) -> bool {
    !word.is_empty() && word.bytes().all(|b| b.is_ascii_digit())
}

/// A number in decimal digits, leading zeros included, that fits.
fn number(word: &str) -> Result<u64, ScriptFault>
    ensures { IfOk result (λ n. n ≡ written word.now) }
{
    if !is_decimal(word) {
        return Err(ScriptFault::BadLine);
    }
    word.parse::<u64>().map_err(|_| ScriptFault::BadLine)
}

fn member(word: &str) -> Result<u8, ScriptFault>
    ensures { IfOk result (λ m. m ≡ written word.now) }
{
    u8::try_from(number(word)?).map_err(|_| ScriptFault::BadLine)
}

fn small(word: &str) -> Result<u32, ScriptFault>
    ensures { IfOk result (λ n. n ≡ written word.now) }
{
    u32::try_from(number(word)?).map_err(|_| ScriptFault::BadLine)
}

/// The tape that the hex of its frames gives.
fn tape(alloc: Global, word: &str) -> Result<Tape, ScriptFault> {
    let frames = match hex::decode(alloc, word.as_bytes()) {
        Ok(frames) => frames,
        Err(FromHexError::OutOfMemory) => return Err(ScriptFault::OutOfMemory),
        Err(_) => return Err(ScriptFault::BadTape),
    };
    match Tape::from_vec(alloc, frames) {
        Ok(tape) => Ok(tape),
        Err(TapeFault::OutOfMemory) => Err(ScriptFault::OutOfMemory),
        Err(_) => Err(ScriptFault::BadTape),
    }
}

fn saved(word: &str) -> Result<bool, ScriptFault> {
    match word {
        "saved" => Ok(true),
        "unsaved" => Ok(false),
        _ => Err(ScriptFault::BadLine),
    }
}

fn members(word: &str) -> Result<u8, ScriptFault> {
    let count = member(word)?;
    if 1 <= count && count <= Member::LAST {
        Ok(count)
    } else {
        Err(ScriptFault::BadLine)
    }
}

/// The version of which this is the number, without leading zeros.
fn version(word: &str) -> Result<Version, ScriptFault>
    ensures some { IfOk result (λ v. word.now ≡ version_word v) }
    ensures none { OnErr result ((¬ (word.now ≡ codes "1")) × (¬ (word.now ≡ codes "2"))) }
{
    match word {
        "1" => Ok(Version::One),
        "2" => Ok(Version::Two),
        _ => Err(ScriptFault::BadLine),
    }
}

/// What a name with one word behind it asks for.
fn order_of_one(name: &[u8], word: &str) -> Result<Order, ScriptFault>
    ensures upgrade { name.now ≡ codes "upgrade" → IfOk result (λ order. order ≡ Upgrade (written word.now)) }
{
    match name {
        b"members" => Ok(Order::Members(members(word)?)),
        b"wire" => Ok(Order::Wire(version(word)?)),
        b"at" => Ok(Order::At(number(word)?)),
        b"due" => Ok(Order::Due {
            member: member(word)?,
        }),
        b"deliver" => Ok(Order::Deliver { k: small(word)? }),
        b"restart" => Ok(Order::Restart {
            member: member(word)?,
        }),
        b"upgrade" => Ok(Order::Upgrade {
            member: member(word)?,
        }),
        _ => Err(ScriptFault::BadLine),
    }
}

/// What a name with a member and one word behind it asks for.
fn order_of_two(name: &str, who: &str, word: &str) -> Result<Order, ScriptFault> {
    match name {
        "withdraw" => Ok(Order::Withdraw {
            member: member(who)?,
            number: small(word)?,
        }),
        "seek" => Ok(Order::Seek {
            member: member(who)?,
            number: small(word)?,
        }),
        "balk" => Ok(Order::Balk {
            member: member(who)?,
            saved: saved(word)?,
        }),
        _ => Err(ScriptFault::BadLine),
    }
}

/// What `recall` with a member, a number and another member behind it asks for.
fn recall(who: &str, what: &str, whom: &str) -> Result<Order, ScriptFault>
    ensures { IfOk result (λ order. order ≡ Recall (written who.now) (written what.now) (written whom.now)) }
{
    Ok(Order::Recall {
        member: member(who)?,
        number: small(what)?,
        to: member(whom)?,
    })
}

/// What `offer` with a member, a number and the hex of a tape behind it asks for.
fn offer(alloc: Global, who: &str, what: &str, frames: &str) -> Result<Order, ScriptFault> {
    let (member, number) = (member(who)?, small(what)?);
    Ok(Order::Offer {
        member,
        number,
        tape: tape(alloc, frames)?,
    })
}

/// What a name with these three words behind it asks for.
fn order_of_three(
    alloc: Global,
    name: &str,
    (who, what, last): (&str, &str, &str),
) -> Result<Order, ScriptFault> {
    match name {
        "offer" => offer(alloc, who, what, last),
        "recall" => recall(who, what, last),
        _ => Err(ScriptFault::BadLine),
    }
}

/// A word as text.
fn text(word: &[u8]) -> Result<&str, ScriptFault> {
    str::from_utf8(word).map_err(|_| ScriptFault::BadLine)
}

/// What a line that is not ignored asks for. Its words stand between spaces.
pub fn order_of(alloc: Global, line: &[u8]) -> Result<Order, ScriptFault> {
    let mut words = line.split(|b| *b == b' ').filter(|w| !w.is_empty());
    let (Some(name), Some(first)) = (words.next(), words.next()) else {
        return Err(ScriptFault::BadLine);
    };
    // Most lines end here, so that nothing more is looked for in them.
    let Some(second) = words.next() else {
        return order_of_one(name, text(first)?);
    };
    match (words.next(), words.next()) {
        (None, _) => order_of_two(text(name)?, text(first)?, text(second)?),
        (Some(last), None) => {
            let name = text(name)?;
            order_of_three(alloc, name, (text(first)?, text(second)?, text(last)?))
        }
        (Some(_), Some(_)) => Err(ScriptFault::BadLine),
    }
}
