//! The words of a text from which a tape is punched: what a piece of the text says, how a word is written, and the line and column of a place.
#![tactic(auto)]

pub mod laws;
mod ligatures;
mod meanings;
mod names;
mod piece;
mod place;
mod word;
mod writing;

pub use ligatures::{LigatureError, ligatures_of};
pub use piece::{TextPiece, first_piece};
pub use place::{TextPlace, place_behind};
pub use word::Word;
pub use writing::{has_word, put_frame, put_meaning};
