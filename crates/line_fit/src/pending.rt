//! The line since the last elevate code, read whatever is wrong with it.

ghost use Rattle.std.specs.Prelude.{◌≡◌, ◌≤◌, ◌+◌, suc, ◌++◌, [], length, IfOk, OnOk, Some, None, option_map, option_to_list};
ghost use Rattle.tape_frames.specs.Frames.{most_frames};
ghost use Rattle.code_table.specs.Tables.{mean};
ghost use Rattle.slug_reader.specs.Lines.{is_cut};
ghost use Rattle.slug_reader.specs.Positions.{or_else};
ghost use Rattle.slug_reader.specs.Meanings.{is_elevate};
ghost use Rattle.slug_reader.specs.Assembling.{line_cut};
ghost use Rattle.line_fit.specs.Fitting.{IsFitAt};
ghost use Rattle.line_fit.specs.Pending.{Stands, StandsBefore, IsBegun, IsRead, IsTaken, IsVerdictOf, IsFitOf, cut_fault, fault_by, if_filled};

use crate::codes::{cause_of, is_elevate, item_of, quad_of, rail_of};
use crate::sizes::Sizes;
use crate::tally::span_of;
use crate::verdict::{LineFit, Verdict};
use code_table::{Case, CodeTable, Meaning};
use line_check::{Cause, LineFault, SetFault, check};
use slug_reader::{Item, Items, Line, Quad, Rail};
use std::alloc::{AllocError, Global};
use std::mem;
use widths::Widths;

/// The case and the rail that hold, and the line since the last cut, with its first fault and its number.
#[derive(Drop)]
pub(crate) struct Pending {
    pub case: Case,
    pub rail: Rail,
    pub items: Vec<Item>,
    pub quad: Option<Quad>,
    pub fault: Option<SetFault>,
    pub line: u32,
}

/// A line that is cut: what is in it, its first fault so far, where it is cut, and its number.
#[derive(Clone, Copy)]
struct CutLine<'a> {
    line: &'a Option<Line>,
    fault: Option<SetFault>,
    at: u32,
    number: u32,
}

/// What is said of a line that is cut.
fn verdict_of(alloc: Global, widths: &Widths, cut: &CutLine<'_>) -> Result<Verdict, AllocError>
    ensures { IfOk result (λ verdict. IsVerdictOf widths.now cut.now.line.now (cut_fault widths.now cut.now.fault cut.now.line.now cut.now.at cut.now.number) verdict) }
{
    if let Some(fault) = cut.fault {
        return Ok(Verdict::Faulty(fault));
    }
    let Some(line) = cut.line else {
        return Ok(Verdict::Nothing);
    };
    let cause = match check(alloc, line, widths) {
        Ok(slug) => return Ok(Verdict::Sets(slug)),
        Err(LineFault::Overset { over }) => Cause::Overset { over },
        Err(LineFault::Loose { under }) => Cause::Loose { under },
        Err(LineFault::OutOfMemory) => return Err(AllocError),
    };
    Ok(Verdict::Faulty(SetFault {
        at: cut.at,
        line: cut.number,
        cause,
    }))
}

/// The line of these items, if there is one.
fn line_of(items: Vec<Item>, quad: Option<Quad>, at: u32) -> Option<Line>
    requires { length items.items ≤ most_frames }
    ensures { result ≡ line_cut items.items quad at }
{
    let items = Items::new(items)?;
    Some(Line {
        items,
        quad,
        elevate_at: at,
    })
}

/// Adds the item of a meaning, if it has one.
fn add(items: &mut Vec<Item>, item: Option<Item>) -> Result<(), AllocError>
    ensures { OnOk result (items.new.items ≡ items.old.items ++ option_to_list item) }
{
    if let Some(item) = item {
        items.push(item)?;
    }
    Ok(())
}

/// What a tape is read by, and its frames.
#[derive(Clone, Copy)]
pub(crate) struct Reading<'a> {
    pub table: &'a CodeTable,
    pub sizes: &'a Sizes<'a>,
    pub frames: &'a [u8],
}

impl Pending {
    /// At the start of a tape.
    pub fn new(alloc: Global) -> Pending
        ensures { IsBegun result }
    {
        Pending {
            case: Case::Unshift,
            rail: Rail::Lower,
            items: Vec::new(alloc),
            quad: None,
            fault: None,
            line: 1,
        }
    }

    /// The first fault of the line, where this is wrong with the frame at a position of it.
    fn first_fault(&self, at: u32, cause: Option<Cause>) -> Option<SetFault>
        ensures { result ≡ or_else self.now.fault (option_map (fault_by at self.now.line) cause) }
    {
        match (self.fault, cause) {
            (None, Some(cause)) => Some(SetFault {
                at,
                line: self.line,
                cause,
            }),
            (fault, _) => fault,
        }
    }

    /// Reads a frame that means this, and answers whether it cuts the line.
    #[tactic(auto, using(crate::proofs::Reading::cause_is))]
    fn read(&mut self, sizes: &Sizes<'_>, meaning: &Meaning, at: u32) -> Result<bool, AllocError>
        ensures cuts { IfOk result (λ cuts. cuts ≡ is_elevate (Some meaning.now)) }
        ensures read { OnOk result (IsRead sizes.now at (Some meaning.now) self.old self.new) }
    {
        let item = item_of(sizes, self.rail, meaning);
        self.fault = self.first_fault(at, cause_of(meaning, &item));
        add(&mut self.items, item)?;
        self.case = meaning.selects().unwrap_or(self.case);
        self.rail = rail_of(meaning).unwrap_or(self.rail);
        self.quad = quad_of(meaning).or(self.quad);
        Ok(is_elevate(meaning))
    }

    /// Reads the frame at this place, and answers whether it cuts the line.
    fn read_frame(&mut self, tape: &Reading<'_>, at: usize) -> Result<bool, AllocError>
        requires { StandsBefore (mean tape.now.table.now) tape.now.sizes.now tape.now.frames.now at self.old }
        ensures cuts { IfOk result (λ cuts. cuts ≡ is_cut (mean tape.now.table.now) tape.now.frames.now at) }
        ensures taken { OnOk result (IsTaken (mean tape.now.table.now) tape.now.sizes.now tape.now.frames.now at self.new) }
    {
        match tape.table.meaning(self.case, tape.frames[at]) {
            Some(meaning) => self.read(tape.sizes, meaning, at as u32),
            None => {
                self.fault = self.first_fault(at as u32, Some(Cause::UnknownCode));
                Ok(false)
            }
        }
    }

    /// Cuts the line at this position.
    fn cut(&mut self, alloc: Global, widths: &Widths, at: u32) -> Result<LineFit, AllocError>
        requires few { length self.old.items.items ≤ most_frames }
        requires short { self.old.line ≤ most_frames }
        ensures fit { IfOk result (λ fit. IsFitOf widths.now self.old at fit) }
        ensures cleared { OnOk result ((self.new.items.items ≡ []) × (self.new.quad ≡ None) × (self.new.fault ≡ None)) }
        ensures kept { OnOk result ((self.new.case ≡ self.old.case) × (self.new.rail ≡ self.old.rail) × (self.new.line ≡ self.old.line + 1)) }
    {
        let span = span_of(&self.items, widths);
        let items = mem::replace(&mut self.items, Vec::new(alloc));
        let line = line_of(items, self.quad.take(), at);
        let cut = CutLine {
            line: &line,
            fault: self.fault.take(),
            at,
            number: self.line,
        };
        let verdict = verdict_of(alloc, widths, &cut)?;
        self.line += 1;
        Ok(LineFit {
            cut_at: at,
            line,
            least: span.least,
            greatest: span.greatest,
            verdict,
        })
    }

    /// Goes on by the frame at this place, and answers how the line fits that it cuts, if it cuts one.
    pub fn step(
        &mut self,
        alloc: Global,
        tape: &Reading<'_>,
        at: usize,
    ) -> Result<Option<LineFit>, AllocError>
        requires { StandsBefore (mean tape.now.table.now) tape.now.sizes.now tape.now.frames.now at self.old }
        ensures fit { IfOk result (λ fit. IsFitAt (mean tape.now.table.now) tape.now.sizes.now tape.now.frames.now at fit) }
        ensures stands { OnOk result (Stands (mean tape.now.table.now) tape.now.sizes.now tape.now.frames.now (suc at) self.new) }
    {
        if self.read_frame(tape, at)? {
            let fit = self.cut(alloc, tape.sizes.widths(), at as u32)?;
            Ok(Some(fit))
        } else {
            Ok(None)
        }
    }

    /// The first fault of what stands behind the last cut, at the end of a tape.
    pub fn rest(&self, end: u32) -> Option<SetFault>
        ensures { result ≡ or_else self.now.fault (if_filled self.now.items.items (fault_by end self.now.line Cause.Unfinished)) }
    {
        if self.fault.is_some() {
            return self.fault;
        }
        if self.items.is_empty() {
            return None;
        }
        Some(SetFault {
            at: end,
            line: self.line,
            cause: Cause::Unfinished,
        })
    }
}
