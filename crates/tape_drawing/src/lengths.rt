//! The lengths of a drawing, in user units.

/// How wide a drawing is, and the page that its document is printed on.
pub(crate) const PAGE_WIDTH: u64 = 840;

/// How high the page is that the document of a tape is printed on.
pub(crate) const PAGE_HEIGHT: u64 = 1120;

/// How far the left edge of the slugs and of the rows of frames lies from that of the page.
pub(crate) const MARGIN: u64 = 60;

/// How wide the measure of a slug is drawn, whatever it is in units.
pub(crate) const MEASURE_WIDTH: u64 = 720;

/// How far the right edge of the slugs lies from the left edge of the page.
pub(crate) const RIGHT_EDGE: u64 = MARGIN + MEASURE_WIDTH;

/// How wide a frame is.
pub(crate) const FRAME_WIDTH: u64 = 18;

/// How far the middle of a frame, where its holes are, lies from its left edge.
pub const FRAME_MIDDLE: u64 = 9;

/// How many frames a whole row has: they are as wide as the measure. A count, and no length.
pub(crate) const ROW_FRAMES: u64 = 40;

/// How high a row is: its positions, its paper and the marks below that.
pub(crate) const ROW_HEIGHT: u64 = 87;

/// How far the paper of a row lies below the upper edge of the row.
pub(crate) const PAPER_TOP: u64 = 12;

/// How far the foot of a position lies above the paper.
pub(crate) const POSITION_RISE: u64 = 2;

/// How high the paper of a row is.
pub(crate) const PAPER_HEIGHT: u64 = 58;

/// How far the feed holes lie below the upper edge of the paper.
pub(crate) const FEED_TOP: u64 = 29;

/// How far level 0, the first of the upper three, lies below the upper edge of the paper.
pub(crate) const UPPER_TOP: u64 = 7;

/// How far level 3, the first of the lower three, lies below the upper edge of the paper.
pub(crate) const LOWER_TOP: u64 = 35;

/// How far a level lies below the one before it, of the upper three and of the lower.
pub(crate) const LEVEL_STEP: u64 = 8;

/// How far the foot of the mark of a frame lies below the upper edge of the paper.
pub(crate) const MARK_FOOT: u64 = 69;

/// How wide a long mark is, which is fitted to the column of its frame.
pub(crate) const MARK_WIDTH: u64 = 17;

/// How high the outline of a faulty frame is, that holds its mark too.
pub(crate) const OUTLINE_HEIGHT: u64 = 74;

/// How far the upper edge of that outline lies above the paper.
pub(crate) const OUTLINE_RISE: u64 = 1;

/// How far the numbers of lines and slugs, which end there, reach from the left edge of the page.
pub(crate) const NUMBER_RIGHT: u64 = 48;

/// How far the foot of the number of a line lies below the upper edge of the line.
pub(crate) const NUMBER_FOOT: u64 = 45;

/// How high a slug is, and each box in it.
pub(crate) const SLUG_HEIGHT: u64 = 46;

/// How far the foot of the number of a slug and of its kind lies below the upper edge of the slug.
pub(crate) const KIND_FOOT: u64 = 29;

/// How far the foot of the name of a matrix lies below the upper edge of its box.
pub(crate) const NAME_FOOT: u64 = 34;

/// How wide a letter is at most, in the name of a matrix that has more than one.
pub(crate) const LETTER_WIDTH: u64 = 22;

/// How far the foot of the width of a band or a space lies below the upper edge of its box.
pub(crate) const WIDTH_FOOT: u64 = 43;

/// How wide the box of a band or a space is at least, if its width in units is to be read in it.
pub(crate) const WIDTH_ROOM: u64 = 10;

/// How high what is cast of a line is, with what is said below it.
pub(crate) const CAST_HEIGHT: u64 = 64;

/// How far what is said at the right end of a line, and ends there, reaches from the left edge of the page.
pub(crate) const BEHIND_RIGHT: u64 = 836;

/// How far the foot of that lies below the upper edge of what is cast.
pub(crate) const BEHIND_FOOT: u64 = 58;

/// How high a note is, where nothing is cast.
pub(crate) const NOTE_HEIGHT: u64 = 18;

/// How far the foot of a note lies below its upper edge.
pub(crate) const NOTE_FOOT: u64 = 11;

/// How high the head of a document is, above its first line.
pub(crate) const HEAD_HEIGHT: u64 = 96;

/// How far the lines of a head lie from the left edge of the page.
pub(crate) const HEAD_LEFT: u64 = 20;

/// How far the foot of the title lies below the upper edge of the head.
pub const TITLE_FOOT: u64 = 30;

/// How far the foot of what is counted lies below it.
pub(crate) const COUNTS_FOOT: u64 = 50;

/// How far the foot of the first half of what the marks stand for lies below it.
pub(crate) const FIRST_LEGEND_FOOT: u64 = 70;

/// How far the foot of the second half lies below it.
pub(crate) const SECOND_LEGEND_FOOT: u64 = 86;

/// The least size of the type: that is still seen.
pub(crate) const LEAST_TYPE: u64 = 6;

/// The greatest size of the type: no higher than a slug.
pub(crate) const GREATEST_TYPE: u64 = 44;
