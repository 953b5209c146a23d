//! The layouts of a database, and the statements that read its saved rows in each.

ghost use Rattle.std.specs.Prelude.{◌≡◌};
ghost use Rattle.rows_table.specs.Tables.{layout_number};
ghost use Rattle.rows_table.specs.Layouts.{all_text, get_text};

/// How a database came to layout 2.
#[derive(Clone, Copy, PartialEq, Eq)]
pub enum LayoutOrigin {
    /// It was created in it.
    Created,
    /// It was upgraded from layout 1, and keeps its table of rows.
    Upgraded,
}

/// Which of its tables a database keeps its saved rows in.
#[derive(Clone, Copy, PartialEq, Eq)]
pub enum Layout {
    /// Layout 1: the table of rows.
    One,
    /// Layout 2: the table of entries.
    Two(LayoutOrigin),
}

impl Layout {
    /// Its number, as the row of the station tells it.
    pub fn number(self) -> u32
        ensures { result ≡ layout_number self }
    {
        match self {
            Layout::One => 1,
            Layout::Two(_) => 2,
        }
    }
}

/// The statement that finds the columns under a number.
pub(crate) fn get_text(layout: Layout) -> &'static str
    ensures { result.now ≡ get_text layout }
{
    match layout {
        Layout::One =>
            "SELECT promised_round, promised_owner, vote_round, vote_owner, tape FROM acceptor_row WHERE number = ?1",
        Layout::Two(_) =>
            "SELECT promised_round, promised_owner, vote_round, vote_owner, length, packed FROM acceptor_entry WHERE number = ?1",
    }
}

/// The statement that lists all rows, by their numbers.
pub(crate) fn all_text(layout: Layout) -> &'static str
    ensures { result.now ≡ all_text layout }
{
    match layout {
        Layout::One =>
            "SELECT number, promised_round, promised_owner, vote_round, vote_owner, tape FROM acceptor_row ORDER BY number",
        Layout::Two(_) =>
            "SELECT number, promised_round, promised_owner, vote_round, vote_owner, length, packed FROM acceptor_entry ORDER BY number",
    }
}
