//! The book of offers of a plant that stays up: what is decided about the files among its offers. No station, no folder and no clock is
//! in it: it is told what was found, what came of what it asked for, and when.
#![tactic(auto)]

mod answers;
mod book;
mod choice;
mod deed;
mod edits;
mod known;
pub mod laws;
mod look;
mod marks;
mod moments;
mod offer;
mod order;
mod rules;
mod stage;
mod under_way;

pub use book::{Book, still_for};
pub use deed::{Allowed, Deed};
pub use offer::{FoundOffer, Offer};
pub use order::rank;
pub use stage::{FileNews, Landing, OfferFault, Stage, Tries};
