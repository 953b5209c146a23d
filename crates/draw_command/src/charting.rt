//! The command `chart`: the chart of a code table and widths.

ghost use Rattle.draw_command.specs.Charting.{IsCharted, Charts, ChartsBy};
ghost use Rattle.command_ends.specs.Giving.{Gives};

use crate::drawing::put_text;
use code_chart::{ChartOrder, draw_chart};
use command_ends::{End, Fault, end_with};
use inputs::{SettingPaths, read_table, read_widths};
use std::alloc::Global;
use std::io::{Read, Write};
use std::marker::Model;
use tape_drawing::DrawingForm;

/// A chart that is asked for: where its files lie, what reads them, and as what it is written. Clauses see the texts.
#[derive(Drop)]
pub struct ChartingOrder<'a, R: Read + Drop> {
    pub paths: &'a SettingPaths<'a>,
    pub table: R,
    pub widths: R,
    pub page: DrawingForm,
}

impl<'a, R: Read + Drop> Model for ChartingOrder<'a, R> {
    ghost use Rattle.draw_command.specs.Charting.{ToChart};

    ghost Value = { ToChart };

    ghost view = { λ o. record {
      table_name = o.paths.now.table.now;
      widths_name = o.paths.now.widths.now;
      table = R.remaining o.table;
      widths = R.remaining o.widths;
      page = o.page;
    } };
}

/// The text of the chart that is asked for.
fn chart_text<'a, R: Read + Drop>(
    alloc: Global,
    order: ChartingOrder<'a, R>,
) -> Result<Vec<u8>, Fault<'a>>
    ensures { Gives result (λ text. IsCharted order.entry text.items) }
{
    let ChartingOrder {
        paths,
        mut table,
        mut widths,
        page,
    } = order;
    let table = read_table(alloc, &mut table, paths.table)?;
    let widths = read_widths(alloc, &mut widths, paths.widths)?;
    let chart = ChartOrder {
        table: &table,
        widths: &widths,
        table_name: paths.table,
        widths_name: paths.widths,
        page,
    };
    Ok(draw_chart(alloc, &chart)?)
}

/// Charts what is asked for, up to the first fault.
#[tactic(auto, using(crate::proofs::ChartEnds::unwritten))]
fn charted<'a, R: Read + Drop, W: Write>(
    alloc: Global,
    order: ChartingOrder<'a, R>,
    out: &mut W,
) -> Result<(), Fault<'a>>
    ensures { ChartsBy order.entry result (W.contents out.old) (W.contents out.new) }
{
    let text = chart_text(alloc, order)?;
    put_text(&text, out)
}

/// Charts a code table with a width file, as a document in SVG or a page in HTML.
///
/// The table is read and taken before the widths are read. The first fault ends it. Nothing is written before both are
/// taken; where the output can't be written, it has a prefix of the chart.
pub fn chart<R: Read + Drop, W: Write, E: Write>(
    alloc: Global,
    order: ChartingOrder<'_, R>,
    out: &mut W,
    err: &mut E,
) -> End
    ensures { Charts order.entry result (W.contents out.old) (W.contents out.new) }
{
    end_with(charted(alloc, order, out), err)
}
