//! The line that is being assembled.

ghost use Rattle.std.specs.Prelude.{◌≡◌, ◌≤◌, ◌+◌, ◌++◌, [], length, Some, None, IfOk, OnErr, unwrap_or, option_to_list};
ghost use Rattle.tape_frames.specs.Frames.{most_frames};
ghost use Rattle.code_table.specs.Tables.{mean};
ghost use Rattle.slug_reader.specs.Assembling.{Takes, AddsNothingFlawed, line_cut};

use crate::codes::{is_elevate, item_of, quad_of, rail_of};
use crate::fault::Flaw;
use crate::item::{Item, Rail};
use crate::items::Items;
use crate::line::{Line, Quad};
use code_table::{Case, CodeTable};
use std::alloc::{AllocError, Global};
use std::mem;
use widths::Widths;

/// What a frame did.
#[derive(Clone, Copy, PartialEq, Eq)]
pub(crate) enum Taken {
    /// The line goes on.
    Kept,
    /// The line is sent to be cast.
    Cut,
    /// The frame is faulty.
    Flawed(Flaw),
}

/// The case and the rail that hold, and the line since the last cut.
#[derive(Drop)]
pub(crate) struct Assembler {
    pub case: Case,
    pub rail: Rail,
    pub items: Vec<Item>,
    pub quad: Option<Quad>,
}

impl Assembler {
    /// At the start of a tape.
    pub fn new(alloc: Global) -> Assembler
        ensures case { result.case ≡ Case.Unshift }
        ensures rail { result.rail ≡ Rail.Lower }
        ensures items { result.items.items ≡ [] }
        ensures quad { result.quad ≡ None }
    {
        Assembler {
            case: Case::Unshift,
            rail: Rail::Lower,
            items: Vec::new(alloc),
            quad: None,
        }
    }

    /// Takes in the next frame, which is looked up once: it selects the same case whichever case holds.
    pub fn push(
        &mut self,
        table: &CodeTable,
        widths: &Widths,
        frame: u8,
    ) -> Result<Taken, AllocError>
        ensures takes { IfOk result (λ taken. Takes (mean table.now) widths.now frame self.old self.new taken) }
        ensures above { 64 ≤ frame → mean table.now self.old.case frame ≡ None }
        ensures few { length self.new.items.items ≤ length self.old.items.items + 1 }
        ensures flawed { IfOk result (λ taken. AddsNothingFlawed self.old self.new taken) }
        ensures err { OnErr result (self.new.items.items ≡ self.old.items.items) }
    {
        let meaning = match table.meaning(self.case, frame) {
            Some(meaning) => meaning,
            None => return Ok(Taken::Flawed(Flaw::UnknownCode)),
        };
        match item_of(widths, self.rail, meaning) {
            Ok(Some(item)) => self.items.push(item)?,
            Ok(None) => {}
            Err(flaw) => return Ok(Taken::Flawed(flaw)),
        }
        self.case = meaning.selects().unwrap_or(self.case);
        self.rail = rail_of(meaning).unwrap_or(self.rail);
        self.quad = quad_of(meaning).or(self.quad);
        Ok(if is_elevate(meaning) {
            Taken::Cut
        } else {
            Taken::Kept
        })
    }

    /// Sends the line to be cast at this position. There is none where it has no item.
    pub fn cut(&mut self, alloc: Global, at: u32) -> Option<Line>
        requires { length self.old.items.items ≤ most_frames }
        ensures line { result ≡ line_cut self.old.items.items self.old.quad at }
        ensures items { self.new.items.items ≡ [] }
        ensures quad { self.new.quad ≡ None }
        ensures case { self.new.case ≡ self.old.case }
        ensures rail { self.new.rail ≡ self.old.rail }
    {
        let items = mem::replace(&mut self.items, Vec::new(alloc));
        let quad = self.quad.take();
        let items = Items::new(items)?;
        Some(Line {
            items,
            quad,
            elevate_at: at,
        })
    }
}
