//! The command `run`: a station that stays up, and works with the folders of its plant.
#![tactic(auto)]

mod backlog;
mod calls;
mod deeds;
mod departures;
mod desk;
mod journal;
mod look;
mod plant;
mod range_asks;
mod reading;
mod release_files;
mod running;
mod status;
mod steps;
mod strays;
mod texts;
mod unseen;

pub use running::{Terms, run_station};
