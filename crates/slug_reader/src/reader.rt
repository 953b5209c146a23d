//! Tapes that come in pieces.

ghost use Rattle.std.specs.Prelude.{◌≡◌, ◌++◌, ℕ, List, Some, Err, OnOk, IfErr, option_to_list, nat_le};
ghost use Rattle.tape_frames.specs.Frames.{most_frames};
ghost use Rattle.slug_reader.specs.Pieces.{StandsAt, AddsFrame, AddsPiece, Finished, IsStopped};
ghost use Rattle.slug_reader.specs.declared.fault.ReadFault.{ReadFault};

use crate::assembler::{Assembler, Taken};
use crate::fault::ReadFault;
use crate::line::Line;
use code_table::CodeTable;
use std::alloc::Global;
use std::marker::Model;
use tape_frames::MAX_FRAMES;
use widths::Widths;

/// Reads a tape that comes in pieces. It keeps the line since the last elevate code, and no more of the tape.
///
/// Clauses see what it has in hand.
#[derive(Drop)]
pub struct Reader<'a> {
    alloc: Global,
    table: &'a CodeTable,
    widths: &'a Widths,
    assembler: Assembler,
    taken: u32,
    fault: Option<ReadFault>,
}

impl<'a> Model for Reader<'a> {
    ghost use Rattle.std.specs.Prelude.{◌≤◌, length};
    ghost use Rattle.tape_frames.specs.Frames.{most_frames};
    ghost use Rattle.slug_reader.specs.Pieces.{InHand};

    ghost Value = { InHand };

    ghost view = { λ r. record { table = r.table.now; widths = r.widths.now; line = r.assembler; taken = r.taken; fault = r.fault } };

    ghost invariant = { λ r. (length r.assembler.items.items ≤ r.taken) × (r.taken ≤ most_frames) };
}

/// What a call answers that met a fault behind these lines: the lines, if there are any, else the fault.
fn stopped(lines: Vec<Line>, fault: ReadFault) -> Result<Vec<Line>, ReadFault>
    ensures { IsStopped lines.items fault result }
{
    if lines.is_empty() || fault.is_memory() {
        Err(fault)
    } else {
        Ok(lines)
    }
}

/// Adds the line, if there is one.
fn add(lines: &mut Vec<Line>, line: Option<Line>) -> Result<(), ReadFault>
    ensures ok { OnOk result (lines.new.items ≡ lines.old.items ++ option_to_list line) }
    ensures err { IfErr result (λ e. e ≡ ReadFault.OutOfMemory) }
{
    if let Some(line) = line {
        if lines.push(line).is_err() {
            return Err(ReadFault::OutOfMemory);
        }
    }
    Ok(())
}

impl<'a> Reader<'a> {
    /// A reader at the start of a tape. It takes no memory.
    pub fn new(alloc: Global, table: &'a CodeTable, widths: &'a Widths) -> Reader<'a>
        ensures by { (result.table ≡ table.now) × (result.widths ≡ widths.now) }
        ensures starts { (tape : List ℕ) → StandsAt result tape 0 }
    {
        Reader {
            alloc,
            table,
            widths,
            assembler: Assembler::new(alloc),
            taken: 0,
            fault: None,
        }
    }

    /// Whether a tape has no frame more.
    fn is_full(&self) -> bool
        ensures { result ≡ nat_le most_frames self.now.taken }
    {
        self.taken as usize >= MAX_FRAMES
    }

    /// Reads the next frame, and adds the line that it cuts, if it has an item.
    fn read_frame(&mut self, frame: u8, lines: &mut Vec<Line>) -> Result<(), ReadFault>
        ensures by { (self.new.table ≡ self.old.table) × (self.new.widths ≡ self.old.widths) }
        ensures fault { self.new.fault ≡ self.old.fault }
        ensures step { AddsFrame frame result lines.old.items lines.new.items self.old self.new }
    {
        let at = self.taken;
        if self.is_full() {
            return Err(ReadFault::TooLong { at });
        }
        match self.assembler.push(self.table, self.widths, frame) {
            Err(_) => Err(ReadFault::OutOfMemory),
            Ok(Taken::Flawed(flaw)) => Err(flaw.at(at)),
            Ok(Taken::Kept) => {
                self.taken += 1;
                Ok(())
            }
            Ok(Taken::Cut) => {
                let line = self.assembler.cut(self.alloc, at);
                add(lines, line)?;
                self.taken += 1;
                Ok(())
            }
        }
    }

    /// Takes in the next piece of the tape, and answers the lines with items that it cuts, in order.
    ///
    /// A byte above 63 is `UnknownCode`, and a frame more than [`MAX_FRAMES`], whatever it is, `TooLong`. A fault that
    /// is met behind such a line waits for the next call; any other is answered at once. So is `OutOfMemory`, and the
    /// lines of the piece are lost. Once there is a fault, each later call answers it, that of an empty piece too.
    pub fn push(&mut self, piece: &[u8]) -> Result<Vec<Line>, ReadFault>
        ensures by { (self.new.table ≡ self.old.table) × (self.new.widths ≡ self.old.widths) }
        ensures failed { (fault : ReadFault) → self.old.fault ≡ Some fault → (result ≡ Err fault) × (self.new ≡ self.old) }
        ensures pushed { AddsPiece piece.now result self.old self.new }
    {
        if let Some(fault) = self.fault {
            return Err(fault);
        }
        let mut lines = Vec::new(self.alloc);
        for frame in piece {
            if let Err(fault) = self.read_frame(*frame, &mut lines) {
                self.fault = Some(fault);
                return stopped(lines, fault);
            }
        }
        Ok(lines)
    }

    /// Whether the tape may end here; `Unfinished` where there are items after the last elevate code, and then each
    /// later call answers that. At `Ok` nothing changes, and more pieces may come.
    ///
    /// A fault that waits is answered, and stays. It takes no memory.
    pub fn finish(&mut self) -> Result<(), ReadFault>
        ensures by { (self.new.table ≡ self.old.table) × (self.new.widths ≡ self.old.widths) }
        ensures failed { (fault : ReadFault) → self.old.fault ≡ Some fault → (result ≡ Err fault) × (self.new ≡ self.old) }
        ensures finished { (tape : List ℕ) (i : ℕ) → StandsAt self.old tape i → Finished self.old tape i result self.new }
    {
        if let Some(fault) = self.fault {
            return Err(fault);
        }
        if self.assembler.items.is_empty() {
            return Ok(());
        }
        let fault = ReadFault::Unfinished { at: self.taken };
        self.fault = Some(fault);
        Err(fault)
    }
}
