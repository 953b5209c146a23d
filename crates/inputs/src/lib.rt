//! The inputs of commands: where they are, and what their texts are taken as.
#![tactic(auto)]

mod paths;
mod sources;

pub use paths::{ScriptPaths, SettingPaths, StoryPaths, TapePaths};
pub use sources::{
    read_table, read_tape, read_text, read_widths, table_of, tape_of, text_of, widths_of,
};
