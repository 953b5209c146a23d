//! Where the files are that a command is given.

/// Where a code table and a width file are.
#[derive(Clone, Copy)]
pub struct SettingPaths<'a> {
    pub table: &'a str,
    pub widths: &'a str,
}

/// Where a code table is, and a text or a tape.
#[derive(Clone, Copy)]
pub struct StoryPaths<'a> {
    pub table: &'a str,
    pub story: &'a str,
}

/// Where a code table, a width file and a tape are.
#[derive(Clone, Copy)]
pub struct TapePaths<'a> {
    pub table: &'a str,
    pub widths: &'a str,
    pub tape: &'a str,
}

/// Where a code table, a width file and a script are.
#[derive(Clone, Copy)]
pub struct ScriptPaths<'a> {
    pub table: &'a str,
    pub widths: &'a str,
    pub script: &'a str,
}
