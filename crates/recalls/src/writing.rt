//! Writing a recall as bytes.

ghost use Rattle.std.specs.Prelude.{◌≡◌, ◌≤◌, ◌+◌, ◌*◌, ◌++◌, List, ℕ, Ok, length, IfOk, OnOk};
ghost use Rattle.std.specs.Int.{w32, to_be_bytes};
ghost use Rattle.recalls.specs.Recalls.{IsRecall};
ghost use Rattle.recalls.specs.Grammar.{Spells};
ghost use Rattle.recalls.specs.Reading.{recall_at};
ghost use Rattle.recalls.specs.Spelling.{front_bytes, count_bytes, number_bytes, spelling};

use crate::reading::HEADER_LEN;
use crate::recall::Recall;
use std::alloc::{AllocError, Global};

fn put_front(out: &mut Vec<u8>, circuit: u16, from: u8, to: u8) -> Result<(), AllocError>
    ensures { OnOk result (out.new.items ≡ out.old.items ++ front_bytes circuit from to) }
{
    out.extend_from_slice(&[b'T', b'R', 1, 1])?;
    out.extend_from_slice(&circuit.to_be_bytes())?;
    out.extend_from_slice(&[from, to])?;
    Ok(())
}

fn put_number(out: &mut Vec<u8>, number: u32) -> Result<(), AllocError>
    ensures { OnOk result (out.new.items ≡ out.old.items ++ to_be_bytes w32 number) }
{
    out.extend_from_slice(&number.to_be_bytes())
}

fn put_count(out: &mut Vec<u8>, asked: u32, count: u8) -> Result<(), AllocError>
    ensures { OnOk result (out.new.items ≡ out.old.items ++ count_bytes asked count) }
{
    put_number(out, asked)?;
    out.push(count)?;
    Ok(())
}

fn put_numbers(out: &mut Vec<u8>, numbers: &[u32]) -> Result<(), AllocError>
    ensures { OnOk result (out.new.items ≡ out.old.items ++ number_bytes numbers.now) }
{
    for number in numbers {
        put_number(out, *number)?;
    }
    Ok(())
}

fn written(alloc: Global, recall: &Recall) -> Result<Vec<u8>, AllocError>
    ensures exact { IfOk result (λ v. v.items ≡ spelling recall.now) }
    ensures range { OnOk result (IsRecall recall.now) }
{
    let ticket = recall.ticket();
    let (from, to) = (ticket.from().get(), ticket.to().get());
    let numbers = recall.numbers();
    let count = numbers.len();
    let mut out = Vec::with_capacity(alloc, HEADER_LEN + 4 * count)?;
    put_front(&mut out, ticket.circuit(), from, to)?;
    put_count(&mut out, ticket.asked(), count as u8)?;
    put_numbers(&mut out, numbers)?;
    Ok(out)
}

/// The one spelling of a recall: 17 bytes or more, and at most 269. Its memory is asked for once.
pub fn encode(alloc: Global, recall: &Recall) -> Result<Vec<u8>, AllocError>
    ensures spelled { IfOk result (λ v. Spells v.items recall.now) }
    // No other bytes spell the recall.
    ensures only { IfOk result (λ v. (other : List ℕ) → Spells other recall.now → other ≡ v.items) }
    ensures again { IfOk result (λ v. recall_at v.items ≡ Ok recall.now) }
    ensures exact { IfOk result (λ v. v.items ≡ spelling recall.now) }
    ensures len { IfOk result (λ v. length v.items ≡ 13 + 4 * length recall.now.numbers) }
{
    written(alloc, recall)
}
