//! The lines of a tape: what is assembled between two elevate codes, read by a code table and a width file.
#![tactic(auto)]

mod assembler;
mod codes;
mod fault;
mod item;
mod items;
mod line;
mod line_numbers;
mod lines;
mod reader;

pub use fault::ReadFault;
pub use item::{Item, Rail};
pub use items::Items;
pub use line::{Line, Quad};
pub use line_numbers::line_at;
pub use lines::{PIECE_FRAMES, read_lines};
pub use reader::Reader;
