//! The report of `fit`.

ghost use Rattle.std.specs.Prelude.{◌≡◌, ◌≤◌, ◌++◌, ◌+◌, IfOk, OnOk, count_by, length, string_bytes, decimal, codes};
ghost use Rattle.editor_commands.specs.Report.{is_fault, is_faulty, slugs_in, rows_from, one_if, faults_in, lines_in, head_text, foot_text, report_text};

use crate::row::{RowNumbers, put_rest, put_row};
use itoa::Buffer;
use line_check::SetFault;
use line_fit::{Fitting, LineFit, Verdict};
use std::alloc::{AllocError, Global};

/// Whether a verdict is that a line does not set.
fn is_fault(verdict: &Verdict) -> bool
    ensures { result ≡ is_fault verdict.now }
{
    matches!(verdict, Verdict::Faulty(_))
}

/// How many of the lines do not set.
fn count_faults(lines: &[LineFit]) -> usize
    ensures value { result ≡ count_by is_faulty lines.now }
    ensures few { result ≤ length lines.now }
{
    let mut faults = 0;
    for line in lines {
        if is_fault(&line.verdict) {
            faults += 1;
        }
    }
    faults
}

/// One, where there is a fault.
fn one_if(fault: Option<SetFault>) -> u8
    ensures { result ≡ one_if fault }
{
    if fault.is_some() { 1 } else { 0 }
}

/// How many lines do not set; what is wrong behind the last counts as one.
pub(crate) fn faults_in(fitting: &Fitting) -> u64
    ensures { result ≡ faults_in fitting.now }
{
    count_faults(&fitting.lines) as u64 + u64::from(one_if(fitting.rest))
}

/// How many slugs a verdict has.
fn slugs_in(verdict: &Verdict) -> usize
    ensures value { result ≡ slugs_in verdict.now }
    ensures few { result ≤ 1 }
{
    match verdict {
        Verdict::Sets(_) => 1,
        _ => 0,
    }
}

/// Writes the rows of lines.
fn put_rows(alloc: Global, text: &mut Vec<u8>, lines: &[LineFit]) -> Result<(), AllocError>
    ensures { OnOk result (text.new.items ≡ text.old.items ++ rows_from 1 1 lines.now) }
{
    let mut slug = 1;
    for (before, line) in lines.iter().enumerate() {
        let numbers = RowNumbers {
            line: before + 1,
            slug,
        };
        put_row(alloc, text, numbers, line)?;
        slug += slugs_in(&line.verdict);
    }
    Ok(())
}

/// How many lines there are; what stands behind the last is one where that is wrong.
fn lines_in(fitting: &Fitting) -> u64
    ensures { result ≡ lines_in fitting.now }
{
    fitting.lines.len() as u64 + u64::from(one_if(fitting.rest))
}

/// Writes the head of a report.
#[tactic(auto, unfolding(crate::specs::Report::head_text))]
fn put_head(alloc: Global, text: &mut Vec<u8>, measure: u16) -> Result<(), AllocError>
    ensures { OnOk result (text.new.items ≡ text.old.items ++ head_text measure) }
{
    let head = format!(in alloc; "line  slug  verdict        least .. most of {measure}\n")?;
    text.extend_from_slice(head.as_bytes())
}

/// Writes a number.
fn put_count(text: &mut Vec<u8>, count: u64) -> Result<(), AllocError>
    ensures { OnOk result (text.new.items ≡ text.old.items ++ decimal count) }
{
    let mut digits = Buffer::new();
    text.extend_from_slice(digits.format(count).as_bytes())
}

/// Writes its foot.
#[tactic(auto, unfolding(crate::specs::Report::foot_text))]
fn put_foot(text: &mut Vec<u8>, faults: u64, lines: u64) -> Result<(), AllocError>
    ensures { OnOk result (text.new.items ≡ text.old.items ++ foot_text faults lines) }
{
    put_count(text, faults)?;
    text.extend_from_slice(b" of ")?;
    put_count(text, lines)?;
    text.extend_from_slice(b" lines do not set\n")
}

/// The report of how a tape fits in a measure: a head, a row for each line, what is wrong behind the last, and how many do not set.
pub(crate) fn report(alloc: Global, measure: u16, fitting: &Fitting) -> Result<Vec<u8>, AllocError>
    ensures { IfOk result (λ text. text.items ≡ report_text measure fitting.now) }
{
    let mut text = Vec::new(alloc);
    put_head(alloc, &mut text, measure)?;
    put_rows(alloc, &mut text, &fitting.lines)?;
    put_rest(alloc, &mut text, fitting.rest)?;
    put_foot(&mut text, faults_in(fitting), lines_in(fitting))?;
    Ok(text)
}
