//! The lengths of a chart, in user units.

use tape_drawing::FRAME_MIDDLE;

/// How high a chart is. It is as wide as the drawing of a tape.
pub(crate) const CHART_HEIGHT: u64 = 808;

/// How high the page is that the document of a chart is printed on.
pub(crate) const PAGE_HEIGHT: u64 = 820;

/// How far the foot of the words on how a cell reads lies below the upper edge of the chart.
pub(crate) const CELL_LEGEND_FOOT: u64 = 52;

/// How far the foot of the words on what is marked lies below it.
pub(crate) const SIGN_LEGEND_FOOT: u64 = 70;

/// How far the foot of the first half of what the marks stand for lies below it.
pub(crate) const FUNCTION_LEGEND_FOOT: u64 = 88;

/// How far the foot of the second half lies below it.
pub(crate) const QUAD_LEGEND_FOOT: u64 = 104;

/// How far the cells lie from the left edge of the chart.
pub(crate) const CELLS_LEFT: u64 = 20;

/// How far the cells lie below the upper edge of the chart.
pub(crate) const CELLS_TOP: u64 = 120;

/// How wide a cell is, with the room on its right.
pub(crate) const CELL_WIDTH: u64 = 100;

/// How high a cell is, with the room below it.
pub(crate) const CELL_HEIGHT: u64 = 84;

/// How wide the card of a cell is.
pub(crate) const CARD_WIDTH: u64 = 96;

/// How high the card of a cell is.
pub(crate) const CARD_HEIGHT: u64 = 80;

/// How far the paper of a combination lies from the left edge of its card, and below the upper edge.
pub(crate) const PAPER_INSET: u64 = 6;

/// How far the middle of the paper, where the holes are and the number below them, lies from the left edge of the card.
pub(crate) const PAPER_MIDDLE: u64 = PAPER_INSET + FRAME_MIDDLE;

/// How far the foot of the number of a combination lies below the upper edge of its card.
pub(crate) const FRAME_NUMBER_FOOT: u64 = 76;

/// How far the foot of the meaning unshifted lies below the upper edge of the card.
pub(crate) const UNSHIFT_FOOT: u64 = 26;

/// How far the foot of the meaning shifted lies below it.
pub(crate) const SHIFT_FOOT: u64 = 60;

/// How far the middle of a meaning's name lies from the left edge of the card.
pub(crate) const NAME_MIDDLE: u64 = 46;

/// How wide a long name is, which is fitted to its room.
pub(crate) const NAME_WIDTH: u64 = 34;

/// How far the width of a meaning, beside its name, lies from the left edge of the card.
pub(crate) const SPAN_LEFT: u64 = 66;

/// How far what is noted of a meaning, below its name, lies from the left edge of the card.
pub(crate) const NOTE_LEFT: u64 = 30;

/// How far the note that it lacks a width lies from there, which may stand behind another.
pub(crate) const LACKING_LEFT: u64 = 58;

/// How far the foot of a note lies below that of the name.
pub(crate) const NOTE_STEP: u64 = 12;
