//! The document of a drawing.

ghost use Rattle.std.specs.Prelude.{◌≡◌, ◌++◌, ◌≤◌, ◌^◌, OnOk, IfOk, length, codes, decimal};
ghost use Rattle.code_table.specs.Tables.{mean};
ghost use Rattle.line_fit.specs.Fitting.{Fits, first_told, fault_in};
ghost use Rattle.line_check.specs.Laws.{AddsUp};
ghost use Rattle.slug_reader.specs.Positions.{first, or_else};
ghost use Rattle.tape_drawing.specs.Lengths.{head_left};
ghost use Rattle.tape_drawing.specs.Shapes.{text_of, shape_text, escaped, Words};
ghost use Rattle.tape_drawing.specs.Layout.{after, first_spot, IsWithin};
ghost use Rattle.tape_drawing.specs.Lines.{AreLinesOf, tape_by};
ghost use Rattle.tape_drawing.specs.Document.{called_by, title_words, rest_lines, rest_faults, counted, tape_counts, line_counts, counted_words, height_of, page_size, style_text, svg_size, svg_open, svg_styled, svg_style, svg_head, head_shapes, fault_link, page_styled, page_look, page_titled, page_open, page_told, page_head, head_by, end_text, document_by, IsDrawingBy};

use crate::elements::{Point, Style, add_count, add_number, add_pair, add_words};
use crate::escaping::add_escaped;
use crate::layout::{Spot, after, type_size};
use crate::lengths::{
    COUNTS_FOOT, FIRST_LEGEND_FOOT, HEAD_LEFT, PAGE_HEIGHT, PAGE_WIDTH, SECOND_LEGEND_FOOT,
    TITLE_FOOT,
};
use crate::lines::{DrawingPlan, add_tape, fault_in, rest_height};
use crate::page::DrawingForm;
use crate::texts::{
    first_legend, page_lead, page_legend, page_main, page_style_end, second_legend, style_head,
    style_tail, svg_lead, svg_style_end,
};
use code_table::CodeTable;
use line_check::SetFault;
use line_check::laws::adds_up;
use line_fit::{Fitting, LineFit, fit};
use std::alloc::{AllocError, Global};
use tape_frames::Tape;
use widths::Widths;

/// What a tape, its table and its widths are called.
#[derive(Clone, Copy)]
pub struct Names<'a> {
    pub tape: &'a str,
    pub table: &'a str,
    pub widths: &'a str,
}

/// What is to be drawn: a tape by a table and widths, with their names, and as what it is written.
#[derive(Clone, Copy)]
pub struct DrawingOrder<'a> {
    pub table: &'a CodeTable,
    pub widths: &'a Widths,
    pub tape: &'a Tape,
    pub names: Names<'a>,
    pub page: DrawingForm,
}

/// The drawing of a tape.
#[derive(Drop)]
pub struct Drawing {
    /// Its document.
    pub text: Vec<u8>,
    /// The first fault for which the tape does not set.
    pub fault: Option<SetFault>,
}

/// What the head counts.
#[derive(Clone, Copy)]
struct HeadCounts {
    measure: u64,
    frames: u64,
    lines: u64,
    slugs: u64,
    faults: u64,
}

/// What the head of a document shows.
#[derive(Clone, Copy)]
struct DrawingHead<'a> {
    title: &'a [u8],
    counts: &'a [u8],
    /// The size of the type.
    size: u64,
    height: u64,
    faults: u64,
}

/// The title: what is drawn, and what it is set by.
fn title_words(alloc: Global, names: &Names<'_>) -> Result<Vec<u8>, AllocError>
    ensures { IfOk result (λ words. words.items ≡ title_words (called_by names.now)) }
{
    let mut words = Vec::new(alloc);
    words.extend_from_slice(names.tape.as_bytes())?;
    words.extend_from_slice(b", set by ")?;
    words.extend_from_slice(names.table.as_bytes())?;
    words.extend_from_slice(b" and ")?;
    words.extend_from_slice(names.widths.as_bytes())?;
    Ok(words)
}

/// One, where there are frames behind the last elevate code.
fn rest_lines(from: u64, frames: u64) -> u8
    ensures { result ≡ rest_lines from frames }
{
    if from < frames { 1 } else { 0 }
}

/// One, where there is a fault.
fn rest_faults(fault: Option<SetFault>) -> u8
    ensures { result ≡ rest_faults fault }
{
    match fault {
        Some(_) => 1,
        None => 0,
    }
}

/// What is counted of a tape of so many frames whose lines end here.
fn counted(measure: u16, frames: u64, end: Spot, rest: Option<SetFault>) -> HeadCounts
    requires { (1 ≤ end.number) × (end.number ≤ 2 ^ 40) × (1 ≤ end.slug) × (end.faults ≤ 2 ^ 40) }
    ensures { result ≡ counted measure frames end rest }
{
    HeadCounts {
        measure: u64::from(measure),
        frames,
        lines: end.number - 1 + u64::from(rest_lines(end.from, frames)),
        slugs: end.slug - 1,
        faults: end.faults + u64::from(rest_faults(rest)),
    }
}

/// Adds what is counted of the tape.
#[tactic(auto, unfolding(crate::specs::Document::tape_counts))]
fn add_tape_counts(words: &mut Vec<u8>, counts: HeadCounts) -> Result<(), AllocError>
    ensures { OnOk result (words.new.items ≡ words.old.items ++ tape_counts counts) }
{
    add_count(words, "measure ", counts.measure)?;
    add_count(words, " | frames ", counts.frames)
}

/// Adds what is counted of its lines.
#[tactic(auto, unfolding(crate::specs::Document::line_counts))]
fn add_line_counts(words: &mut Vec<u8>, counts: HeadCounts) -> Result<(), AllocError>
    ensures { OnOk result (words.new.items ≡ words.old.items ++ line_counts counts) }
{
    add_count(words, " | lines ", counts.lines)?;
    add_count(words, " | slugs ", counts.slugs)?;
    add_count(words, " | lines that do not set ", counts.faults)
}

/// How it is told.
fn counted_words(alloc: Global, counts: HeadCounts) -> Result<Vec<u8>, AllocError>
    ensures { IfOk result (λ words. words.items ≡ counted_words counts) }
{
    let mut words = Vec::new(alloc);
    add_tape_counts(&mut words, counts)?;
    add_line_counts(&mut words, counts)?;
    Ok(words)
}

/// How far the drawing reaches down.
fn height_of(frames: u64, end: Spot) -> u64
    requires { (frames ≤ 2 ^ 30) × (end.top ≤ 2 ^ 40) }
    ensures { result ≡ height_of frames end }
{
    if end.from < frames {
        end.top + rest_height(frames - end.from)
    } else {
        end.top
    }
}

/// Adds how large the page is that a document is printed on: as wide as a drawing, and this high.
pub fn add_page_size(text: &mut Vec<u8>, height: u64) -> Result<(), AllocError>
    ensures { OnOk result (text.new.items ≡ text.old.items ++ page_size height) }
{
    add_pair(text, "@page{size:", "px ", (PAGE_WIDTH, height))?;
    text.extend_from_slice(b"px;margin:0}\n")?;
    Ok(())
}

/// Adds how what is drawn looks, with type of this size.
#[tactic(auto, unfolding(crate::specs::Document::style_text))]
fn add_style(text: &mut Vec<u8>, size: u64) -> Result<(), AllocError>
    ensures { OnOk result (text.new.items ≡ text.old.items ++ style_text size) }
{
    add_page_size(text, PAGE_HEIGHT)?;
    text.extend_from_slice(style_head().as_bytes())?;
    add_number(text, size)?;
    text.extend_from_slice(style_tail().as_bytes())
}

/// Adds what begins the element of a document of this height: how wide and high it is, and that a user unit is a px.
#[tactic(auto, unfolding(crate::specs::Document::svg_size))]
fn add_svg_size(text: &mut Vec<u8>, height: u64) -> Result<(), AllocError>
    ensures { OnOk result (text.new.items ≡ text.old.items ++ svg_size height) }
{
    add_pair(text, svg_lead(), "' height='", (PAGE_WIDTH, height))?;
    add_pair(text, "' viewBox='0 0 ", " ", (PAGE_WIDTH, height))
}

/// Adds what begins a document of this height with this title.
#[tactic(auto, unfolding(crate::specs::Document::svg_open))]
pub fn add_svg_open(text: &mut Vec<u8>, height: u64, title: &[u8]) -> Result<(), AllocError>
    ensures { OnOk result (text.new.items ≡ text.old.items ++ svg_open height title.now) }
{
    add_svg_size(text, height)?;
    text.extend_from_slice(b"'>\n<title>")?;
    add_escaped(text, title)?;
    text.extend_from_slice(b"</title>\n")
}

/// Adds how a document looks, and its ground.
#[tactic(auto, unfolding(crate::specs::Document::svg_styled))]
fn add_svg_styled(text: &mut Vec<u8>, size: u64) -> Result<(), AllocError>
    ensures { OnOk result (text.new.items ≡ text.old.items ++ svg_styled size) }
{
    add_style(text, size)?;
    text.extend_from_slice(svg_style_end().as_bytes())
}

/// Adds how a document looks, behind what begins its style.
#[tactic(auto, unfolding(crate::specs::Document::svg_style))]
fn add_svg_style(text: &mut Vec<u8>, size: u64) -> Result<(), AllocError>
    ensures { OnOk result (text.new.items ≡ text.old.items ++ svg_style size) }
{
    text.extend_from_slice(b"<style type='text/css'>\n")?;
    add_svg_styled(text, size)
}

/// Adds a line of the head of a document, with its foot so far down.
pub fn add_head_line(
    text: &mut Vec<u8>,
    style: Style,
    foot: u64,
    words: &[u8],
) -> Result<(), AllocError>
    ensures { OnOk result (text.new.items ≡ text.old.items ++ shape_text (Words style head_left foot words.now)) }
{
    let at = Point {
        x: HEAD_LEFT,
        y: foot,
    };
    add_words(text, style, at, words)
}

/// Adds the head of a document: its title, what is counted, and what the marks stand for.
fn add_head(text: &mut Vec<u8>, title: &[u8], counts: &[u8]) -> Result<(), AllocError>
    ensures { OnOk result (text.new.items ≡ text.old.items ++ text_of (head_shapes title.now counts.now)) }
{
    let legend = first_legend().as_bytes();
    let others = second_legend().as_bytes();
    add_head_line(text, Style::Heading, TITLE_FOOT, title)?;
    add_head_line(text, Style::Head, COUNTS_FOOT, counts)?;
    add_head_line(text, Style::Head, FIRST_LEGEND_FOOT, legend)?;
    add_head_line(text, Style::Head, SECOND_LEGEND_FOOT, others)
}

/// Adds a document in SVG as far as its lines.
#[tactic(auto, unfolding(crate::specs::Document::svg_head))]
fn add_svg_head(text: &mut Vec<u8>, heading: &DrawingHead<'_>) -> Result<(), AllocError>
    ensures { OnOk result (text.new.items ≡ text.old.items
        ++ svg_head heading.now.height heading.now.title.now heading.now.counts.now heading.now.size) }
{
    add_svg_open(text, heading.height, heading.title)?;
    add_svg_style(text, heading.size)?;
    add_head(text, heading.title, heading.counts)
}

/// Adds what leads to the first line that does not set, where there is one.
fn add_link(text: &mut Vec<u8>, faults: u64) -> Result<(), AllocError>
    ensures { OnOk result (text.new.items ≡ text.old.items ++ fault_link faults) }
{
    if faults == 0 {
        return Ok(());
    }
    text.extend_from_slice(b"<p><a href='#fault'>The first line that does not set</a></p>\n")
}

/// Adds how a page looks, and what begins its heading.
#[tactic(auto, unfolding(crate::specs::Document::page_styled))]
fn add_page_styled(text: &mut Vec<u8>, size: u64) -> Result<(), AllocError>
    ensures { OnOk result (text.new.items ≡ text.old.items ++ page_styled size) }
{
    add_style(text, size)?;
    text.extend_from_slice(page_style_end().as_bytes())
}

/// Adds the end of the title of a page, and how it looks.
#[tactic(auto, unfolding(crate::specs::Document::page_look))]
fn add_page_look(text: &mut Vec<u8>, size: u64) -> Result<(), AllocError>
    ensures { OnOk result (text.new.items ≡ text.old.items ++ page_look size) }
{
    text.extend_from_slice(b"</title>\n<style>\n")?;
    add_page_styled(text, size)
}

/// Adds what begins a page, with its title.
#[tactic(auto, unfolding(crate::specs::Document::page_titled))]
fn add_page_title(text: &mut Vec<u8>, title: &[u8]) -> Result<(), AllocError>
    ensures { OnOk result (text.new.items ≡ text.old.items ++ page_titled title.now) }
{
    text.extend_from_slice(page_lead().as_bytes())?;
    add_escaped(text, title)
}

/// Adds what begins a page with this title, and how it looks.
#[tactic(auto, unfolding(crate::specs::Document::page_open))]
fn add_page_open(text: &mut Vec<u8>, title: &[u8], size: u64) -> Result<(), AllocError>
    ensures { OnOk result (text.new.items ≡ text.old.items ++ page_open title.now size) }
{
    add_page_title(text, title)?;
    add_page_look(text, size)
}

/// Adds the heading of a page, and what is counted.
fn add_page_counts(text: &mut Vec<u8>, title: &[u8], counts: &[u8]) -> Result<(), AllocError>
    ensures { OnOk result (text.new.items ≡ text.old.items
        ++ (escaped title.now ++ (codes "</h1>\n<p>" ++ (escaped counts.now ++ codes "</p>\n")))) }
{
    add_escaped(text, title)?;
    text.extend_from_slice(b"</h1>\n<p>")?;
    add_escaped(text, counts)?;
    text.extend_from_slice(b"</p>\n")
}

/// Adds what a page tells before its drawings.
#[tactic(auto, unfolding(crate::specs::Document::page_told))]
fn add_page_told(text: &mut Vec<u8>, heading: &DrawingHead<'_>) -> Result<(), AllocError>
    ensures { OnOk result (text.new.items ≡ text.old.items ++ page_told heading.now.title.now heading.now.counts.now heading.now.faults) }
{
    add_page_counts(text, heading.title, heading.counts)?;
    text.extend_from_slice(page_legend().as_bytes())?;
    add_link(text, heading.faults)?;
    text.extend_from_slice(page_main().as_bytes())
}

/// Adds all of a page as far as its lines.
#[tactic(auto, unfolding(crate::specs::Document::page_head))]
fn add_page_head(text: &mut Vec<u8>, heading: &DrawingHead<'_>) -> Result<(), AllocError>
    ensures { OnOk result (text.new.items ≡ text.old.items
        ++ page_head heading.now.title.now heading.now.counts.now heading.now.size heading.now.faults) }
{
    add_page_open(text, heading.title, heading.size)?;
    add_page_told(text, heading)
}

/// Adds all of a document as far as its lines.
fn add_heading(
    text: &mut Vec<u8>,
    page: DrawingForm,
    heading: &DrawingHead<'_>,
) -> Result<(), AllocError>
    ensures { OnOk result (text.new.items ≡ text.old.items ++ head_by page heading.now) }
{
    match page {
        DrawingForm::Svg => add_svg_head(text, heading),
        DrawingForm::Html => add_page_head(text, heading),
    }
}

/// Adds what stands behind its lines.
fn add_end(text: &mut Vec<u8>, page: DrawingForm) -> Result<(), AllocError>
    ensures { OnOk result (text.new.items ≡ text.old.items ++ end_text page) }
{
    match page {
        DrawingForm::Svg => text.extend_from_slice(b"</svg>\n"),
        DrawingForm::Html => text.extend_from_slice(b"</main>\n</body>\n</html>\n"),
    }
}

/// The first fault of lines.
#[tactic(auto, using(crate::proofs::Firsts::first_found, crate::proofs::Firsts::first_none))]
fn first_in(lines: &[LineFit]) -> Option<SetFault>
    ensures { result ≡ first (λ fit. fault_in fit.verdict) lines.now }
{
    for line in lines {
        match fault_in(&line.verdict) {
            Some(fault) => return Some(fault),
            None => {}
        }
    }
    None
}

/// The first of two faults: the second where there is no first.
fn told(first: Option<SetFault>, rest: Option<SetFault>) -> Option<SetFault>
    ensures { result ≡ or_else first rest }
{
    match first {
        Some(fault) => Some(fault),
        None => rest,
    }
}

/// The first fault that a fitting tells.
fn first_told(fitting: &Fitting) -> Option<SetFault>
    ensures { result ≡ first_told fitting.now }
{
    told(first_in(&fitting.lines), fitting.rest)
}

/// The document of a tape whose lines fit so.
fn document_of(
    plan: &DrawingPlan<'_>,
    names: &Names<'_>,
    fitting: &Fitting,
) -> Result<Vec<u8>, AllocError>
    requires { AreLinesOf plan.now fitting.now.lines.items }
    ensures { IfOk result (λ text. text.items ≡ document_by plan.now names.now fitting.now) }
{
    let frames = plan.tape.len();
    let measure = plan.widths.measure();
    let end = after(&fitting.lines, u64::from(measure), frames);
    let counts = counted(measure, frames as u64, end, fitting.rest);
    let title = title_words(plan.alloc, names)?;
    let words = counted_words(plan.alloc, counts)?;
    let heading = DrawingHead {
        title: &title,
        counts: &words,
        size: type_size(plan.widths),
        height: height_of(frames as u64, end),
        faults: counts.faults,
    };
    let mut text = Vec::new(plan.alloc);
    add_heading(&mut text, plan.page, &heading)?;
    add_tape(&mut text, plan, fitting)?;
    add_end(&mut text, plan.page)?;
    Ok(text)
}

/// Draws a tape, whatever is wrong with it, and answers its document with the first fault for which it does not set.
///
/// Each line is drawn, one that does not set as it would be cast.
pub fn draw_tape(alloc: Global, order: &DrawingOrder<'_>) -> Result<Drawing, AllocError>
    ensures { IfOk result (λ d. IsDrawingBy order.now d.text.items d.fault) }
{
    adds_up();
    let fitting = fit(alloc, order.table, order.widths, order.tape)?;
    let plan = DrawingPlan {
        alloc,
        page: order.page,
        table: order.table,
        widths: order.widths,
        tape: order.tape.frames(),
    };
    let text = document_of(&plan, &order.names, &fitting)?;
    Ok(Drawing {
        text,
        fault: first_told(&fitting),
    })
}
