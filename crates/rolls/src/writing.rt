//! Writing a roll as bytes.

ghost use Rattle.std.specs.Prelude.{◌≡◌, ◌≤◌, ◌+◌, ◌++◌, List, ℕ, Ok, length, IfOk, OnOk};
ghost use Rattle.std.specs.Int.{w16, w32, to_be_bytes};
ghost use Rattle.rolls.specs.Kinds.{body_len};
ghost use Rattle.rolls.specs.Bodies.{said, kind_of};
ghost use Rattle.rolls.specs.Rolls.{IsBody, IsRoll};
ghost use Rattle.rolls.specs.Grammar.{Spells};
ghost use Rattle.rolls.specs.Reading.{roll_at};
ghost use Rattle.rolls.specs.Spelling.{front_bytes, count_bytes, body_bytes, spelling};

use crate::body::{ASK_LEN, RollBody};
use crate::reading::HEADER_LEN;
use crate::roll::Roll;
use std::alloc::{AllocError, Global};

fn put_front(out: &mut Vec<u8>, kind: u8, circuit: u16) -> Result<(), AllocError>
    ensures { OnOk result (out.new.items ≡ out.old.items ++ front_bytes kind circuit) }
{
    out.extend_from_slice(&[b'T', b'R', 1, kind])?;
    out.extend_from_slice(&circuit.to_be_bytes())?;
    Ok(())
}

fn put_count(out: &mut Vec<u8>, count: u16) -> Result<(), AllocError>
    ensures { OnOk result (out.new.items ≡ out.old.items ++ to_be_bytes w16 count) }
{
    out.extend_from_slice(&count.to_be_bytes())
}

fn put_counts(out: &mut Vec<u8>, counts: &[u16]) -> Result<(), AllocError>
    ensures { OnOk result (out.new.items ≡ out.old.items ++ count_bytes counts.now) }
{
    for count in counts {
        put_count(out, *count)?;
    }
    Ok(())
}

fn put_body(out: &mut Vec<u8>, body: &RollBody) -> Result<(), AllocError>
    ensures exact { OnOk result (out.new.items ≡ out.old.items ++ body_bytes (said body.now)) }
    ensures range { OnOk result (IsBody (said body.now)) }
{
    match body {
        RollBody::CountsAsked => out.extend_from_slice(&[0; ASK_LEN])?,
        RollBody::Counts(counts) => put_counts(out, counts.as_slice())?,
        RollBody::PageAsked(page) => out.extend_from_slice(&[page.get(), 0, 0, 0, 0])?,
        RollBody::Page(votes) => {
            out.push(votes.page().get())?;
            out.extend_from_slice(votes.as_bytes())?;
        }
    }
    Ok(())
}

fn written(alloc: Global, roll: &Roll) -> Result<Vec<u8>, AllocError>
    ensures exact { IfOk result (λ v. v.items ≡ spelling roll.now) }
    ensures range { OnOk result (IsRoll roll.now) }
{
    let ticket = roll.ticket();
    let (from, to) = (ticket.from().get(), ticket.to().get());
    let kind = roll.body().kind();
    let mut out = Vec::with_capacity(alloc, HEADER_LEN + kind.body_len())?;
    put_front(&mut out, kind.byte(), ticket.circuit())?;
    out.extend_from_slice(&[from, to])?;
    out.extend_from_slice(&ticket.asked().to_be_bytes())?;
    put_body(&mut out, roll.body())?;
    Ok(out)
}

/// The one spelling of a roll: 17 bytes, 258, 17 or 1,037, by its kind. Its memory is asked for once.
pub fn encode(alloc: Global, roll: &Roll) -> Result<Vec<u8>, AllocError>
    ensures spelled { IfOk result (λ v. Spells v.items roll.now) }
    // No other bytes spell the roll.
    ensures only { IfOk result (λ v. (other : List ℕ) → Spells other roll.now → other ≡ v.items) }
    ensures again { IfOk result (λ v. roll_at v.items ≡ Ok roll.now) }
    ensures exact { IfOk result (λ v. v.items ≡ spelling roll.now) }
    ensures len { IfOk result (λ v. length v.items ≡ 12 + body_len (kind_of roll.now.body)) }
{
    written(alloc, roll)
}
