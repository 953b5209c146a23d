//! Drawings of tapes: line by line its frames and to scale what they cast, as a document in SVG 1.1 or a page in HTML.
#![tactic(auto)]

mod document;
mod elements;
mod escaping;
mod frames;
pub mod laws;
mod layout;
mod lengths;
mod lines;
mod meanings;
mod page;
mod slugs;
mod texts;

pub use document::{
    Drawing, DrawingOrder, Names, add_head_line, add_page_size, add_svg_open, draw_tape,
};
pub use elements::{
    Point, Room, Style, add_count, add_fitted, add_group, add_number, add_pair, add_paper,
    add_words,
};
pub use escaping::add_escaped;
pub use frames::add_holes;
pub use lengths::{FRAME_MIDDLE, TITLE_FOOT};
pub use meanings::{mark_style, mark_word, meaning_word};
pub use page::DrawingForm;
pub use texts::page_lead;
