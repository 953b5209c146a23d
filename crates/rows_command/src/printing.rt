//! Rows that are written as they come.

ghost use Rattle.std.specs.Prelude.{◌++◌, IsSome, refl};
ghost use Rattle.std.proofs.Common.{sym, subst₂};
ghost use Rattle.streams.specs.Writing.{Writes};
ghost use Rattle.rows_command.specs.RowsText.{row_line};
ghost use Rattle.rows_command.specs.Printing.{head_text, PrintsNone, PrintsOn};

use crate::texts::{row_line, station_line};
use acceptor_store::RowVisitor;
use ballots::{Number, Row};
use release_texts::put_line;
use rows_saved::Identity;
use std::alloc::Global;
use std::io::Write;
use streams::PutFault;

/// What is to stand before the rows: whose they are, unless that stands there, and where the memory for a line is from.
#[derive(Clone, Copy)]
pub(crate) struct RowsHead {
    pub(crate) alloc: Global,
    pub(crate) station: Identity,
    pub(crate) begun: bool,
}

/// Writes whose rows they are, unless that stands there.
pub(crate) fn put_head<W: Write>(head: RowsHead, out: &mut W) -> Result<(), PutFault>
    ensures { Writes result (W.contents out.old) (W.contents out.new) (head_text head.station head.begun) }
{
    if head.begun {
        return Ok(());
    }
    let line = station_line(head.alloc, head.station)?;
    put_line(&line, out)
}

fn put_row<W: Write>(alloc: Global, number: Number, row: &Row, out: &mut W) -> Result<(), PutFault>
    ensures { Writes result (W.contents out.old) (W.contents out.new) (row_line (number, row.now)) }
{
    let line = row_line(alloc, number, row)?;
    put_line(&line, out)
}

/// Writes the line of the next row, and before that of the first whose rows they are.
fn put_next<W: Write>(
    head: RowsHead,
    number: Number,
    row: &Row,
    out: &mut W,
) -> Result<(), PutFault>
    ensures { Writes result (W.contents out.old) (W.contents out.new) (head_text head.station head.begun ++ row_line (number, row.now)) }
{
    put_head(head, out)?;
    put_row(head.alloc, number, row, out)
}

/// Writes the rows that it sees, as they come.
#[derive(Drop)]
pub(crate) struct RowPrinter<'a, W: Write> {
    pub(crate) alloc: Global,
    pub(crate) station: Identity,
    pub(crate) out: &'a mut W,
    /// Whether a row has come: whose rows they are stands before the first.
    pub(crate) begun: bool,
    /// Why no more is written.
    pub(crate) fault: Option<PutFault>,
}

impl<W: Write> RowVisitor for RowPrinter<'_, W> {
    ghost saw = { λ old new rows. PrintsOn W.contents old new rows };

    ghost has_enough = { λ it. IsSome it.fault };

    fn see(&mut self, number: Number, row: &Row) -> bool {
        if self.fault.is_some() {
            return false;
        }
        let head = RowsHead {
            alloc: self.alloc,
            station: self.station,
            begun: self.begun,
        };
        let put = put_next(head, number, row, self.out);
        self.begun = true;
        match put {
            Ok(()) => true,
            Err(fault) => {
                self.fault = Some(fault);
                false
            }
        }
    }

    ghost saw_none = { λ it. (refl, refl, λ fresh. subst₂ (PrintsNone it.station (W.contents it.out.now)) (sym fresh.0) (sym fresh.1) (refl, refl)) };
}
