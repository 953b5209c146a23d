//! The document of a chart.

ghost use Rattle.std.specs.Prelude.{◌≡◌, ◌++◌, OnOk, IfOk};
ghost use Rattle.code_table.specs.Tables.{mean};
ghost use Rattle.tape_drawing.specs.Shapes.{escaped};
ghost use Rattle.code_chart.specs.Cells.{chart};
ghost use Rattle.code_chart.specs.Document.{title_words, legend_text, chart_open, style_text, svg_head, page_open, page_head, text_with, chart_text};

use crate::cells::{Sheet, add_cells};
use crate::lengths::{
    CELL_LEGEND_FOOT, CHART_HEIGHT, FUNCTION_LEGEND_FOOT, PAGE_HEIGHT, QUAD_LEGEND_FOOT,
    SIGN_LEGEND_FOOT,
};
use crate::texts::{
    cell_legend, function_legend, page_end, page_legend, page_style_end, page_style_lead,
    quad_legend, sign_legend, style, svg_ground, svg_style_lead,
};
use code_table::CodeTable;
use std::alloc::{AllocError, Global};
use tape_drawing::{
    DrawingForm, Style, TITLE_FOOT, add_escaped, add_head_line, add_page_size, add_svg_open,
    page_lead,
};
use widths::Widths;

/// What is to be charted: a table and widths, with the names that they were given by, and as what it is written.
#[derive(Clone, Copy)]
pub struct ChartOrder<'a> {
    pub table: &'a CodeTable,
    pub widths: &'a Widths,
    /// What the table is called.
    pub table_name: &'a str,
    /// What the width file is called.
    pub widths_name: &'a str,
    pub page: DrawingForm,
}

/// The title.
fn title_of(alloc: Global, order: &ChartOrder<'_>) -> Result<Vec<u8>, AllocError>
    ensures { IfOk result (λ words. words.items ≡ title_words order.now.table_name.now order.now.widths_name.now) }
{
    let mut words = Vec::new(alloc);
    words.extend_from_slice(order.table_name.as_bytes())?;
    words.extend_from_slice(b", with the widths of ")?;
    words.extend_from_slice(order.widths_name.as_bytes())?;
    Ok(words)
}

/// Adds how a cell reads, and what the marks stand for.
#[tactic(auto, unfolding(crate::specs::Document::legend_text))]
fn add_legend(text: &mut Vec<u8>) -> Result<(), AllocError>
    ensures { OnOk result (text.new.items ≡ text.old.items ++ legend_text) }
{
    let cells = cell_legend().as_bytes();
    let signs = sign_legend().as_bytes();
    let functions = function_legend().as_bytes();
    let quads = quad_legend().as_bytes();
    add_head_line(text, Style::Head, CELL_LEGEND_FOOT, cells)?;
    add_head_line(text, Style::Head, SIGN_LEGEND_FOOT, signs)?;
    add_head_line(text, Style::Head, FUNCTION_LEGEND_FOOT, functions)?;
    add_head_line(text, Style::Head, QUAD_LEGEND_FOOT, quads)
}

/// Adds what begins a document, with its title.
#[tactic(auto, unfolding(crate::specs::Document::chart_open))]
fn add_chart_open(text: &mut Vec<u8>, title: &[u8]) -> Result<(), AllocError>
    ensures { OnOk result (text.new.items ≡ text.old.items ++ chart_open title.now) }
{
    add_svg_open(text, CHART_HEIGHT, title)?;
    text.extend_from_slice(svg_style_lead().as_bytes())
}

/// Adds how a chart looks, with the page that it is printed on.
#[tactic(auto, unfolding(crate::specs::Document::style_text))]
fn add_style(text: &mut Vec<u8>) -> Result<(), AllocError>
    ensures { OnOk result (text.new.items ≡ text.old.items ++ style_text) }
{
    add_page_size(text, PAGE_HEIGHT)?;
    text.extend_from_slice(style().as_bytes())
}

/// Adds how a document looks, and its head.
#[tactic(auto, unfolding(crate::specs::Document::svg_head))]
fn add_svg_head(text: &mut Vec<u8>, title: &[u8]) -> Result<(), AllocError>
    ensures { OnOk result (text.new.items ≡ text.old.items ++ svg_head title.now) }
{
    add_style(text)?;
    text.extend_from_slice(svg_ground().as_bytes())?;
    add_head_line(text, Style::Heading, TITLE_FOOT, title)?;
    add_legend(text)
}

/// Adds what begins a page, with its title.
#[tactic(auto, unfolding(crate::specs::Document::page_open))]
fn add_page_open(text: &mut Vec<u8>, title: &[u8]) -> Result<(), AllocError>
    ensures { OnOk result (text.new.items ≡ text.old.items ++ page_open title.now) }
{
    text.extend_from_slice(page_lead().as_bytes())?;
    add_escaped(text, title)?;
    text.extend_from_slice(page_style_lead().as_bytes())
}

/// Adds how a page looks, and its head.
#[tactic(auto, unfolding(crate::specs::Document::page_head))]
fn add_page_head(text: &mut Vec<u8>, title: &[u8]) -> Result<(), AllocError>
    ensures { OnOk result (text.new.items ≡ text.old.items ++ page_head title.now) }
{
    add_style(text)?;
    text.extend_from_slice(page_style_end().as_bytes())?;
    add_escaped(text, title)?;
    text.extend_from_slice(page_legend().as_bytes())
}

/// Adds the document with this title.
fn add_chart(text: &mut Vec<u8>, sheet: &Sheet<'_>, title: &[u8]) -> Result<(), AllocError>
    ensures { OnOk result (text.new.items ≡ text.old.items
        ++ text_with sheet.now.page title.now (chart sheet.now.widths.now (mean sheet.now.table.now))) }
{
    match sheet.page {
        DrawingForm::Svg => {
            add_chart_open(text, title)?;
            add_svg_head(text, title)?;
            add_cells(text, sheet)?;
            text.extend_from_slice(b"</svg>\n")
        }
        DrawingForm::Html => {
            add_page_open(text, title)?;
            add_page_head(text, title)?;
            add_cells(text, sheet)?;
            text.extend_from_slice(page_end().as_bytes())
        }
    }
}

/// Charts a code table: all 64 combinations, with their holes, both meanings, and their widths.
pub fn draw_chart(alloc: Global, order: &ChartOrder<'_>) -> Result<Vec<u8>, AllocError>
    ensures { IfOk result (λ text. text.items
        ≡ chart_text order.now.page order.now.widths.now (mean order.now.table.now) order.now.table_name.now order.now.widths_name.now) }
{
    let title = title_of(alloc, order)?;
    let sheet = Sheet {
        page: order.page,
        table: order.table,
        widths: order.widths,
    };
    let mut text = Vec::new(alloc);
    add_chart(&mut text, &sheet, &title)?;
    Ok(text)
}
