//! What a station that stays up tells on standard error, and when it tells it again.
#![tactic(auto)]

mod differences;
mod event;
mod files;
pub mod laws;
mod line;
mod older;
mod passed;
mod reason;
mod room;
mod skipped;
mod standing;
mod stories;
mod story;
mod told;
mod writing;

pub use differences::is_time;
pub use event::LogEvent;
pub use files::Trouble;
pub use line::FileTrouble;
pub use reason::{NO_NUMBER, ReasonText};
pub use room::MOST_KEPT;
pub use standing::{HOUR, Standing, is_told_anew, told_after};
pub use told::Told;
pub use writing::{
    put_text, tell_fault, tell_file, tell_folders, tell_news, tell_no_memory, tell_refused,
};
