//! The text of a status.

ghost use Rattle.std.specs.Prelude.{◌≡◌, ◌++◌, IfOk, OnOk, string_bytes, flat_map};
ghost use Rattle.std.specs.List.{list_any};
ghost use Rattle.plant_status.specs.Texts.{busy_line, busy_text, end_text, form_of, head_text, heard_text, missing_line, next_busy, offers_text, older_text, released_text, span_text, status_text};

use crate::moment::Moment;
use crate::status::{Busy, HeardMember, Missing, NumberSpan, Released, Status};
use crate::words::ShownText;
use std::alloc::{AllocError, Global};

/// What stands behind the moment of a member whose rows are of layout 1, where those of the station are of layout 2.
pub(crate) const OLDER: &str = ", its rows are of layout 1";

/// Puts the first line behind a text.
fn push_head(text: &mut String, status: &Status) -> Result<(), AllocError>
    ensures { OnOk result (string_bytes text.new ≡ string_bytes text.old ++ head_text status.now) }
{
    writeln!(text, "{} since {}", status.station, status.since)
}

/// What stands behind the moment of a member.
fn older_words(is_older: bool) -> &'static str
    ensures { result.now ≡ older_text is_older }
{
    if is_older { OLDER } else { "" }
}

/// Puts the line of a member behind a text.
fn push_heard(text: &mut String, heard: &HeardMember, written: &Moment) -> Result<(), AllocError>
    ensures { OnOk result (string_bytes text.new ≡ string_bytes text.old ++ heard_text written.now heard.now) }
{
    let (member, written) = (heard.member, *written);
    let older = older_words(heard.is_older);
    match heard.at {
        None => writeln!(text, "member {member} not heard since the start{older}"),
        Some(moment) => writeln!(
            text,
            "member {member} heard at {}{older}",
            ShownText { written, moment }
        ),
    }
}

/// Puts the lines of members behind a text.
fn push_members(
    text: &mut String,
    members: &[HeardMember],
    written: &Moment,
) -> Result<(), AllocError>
    ensures { OnOk result (string_bytes text.new ≡ string_bytes text.old ++ flat_map (heard_text written.now) members.now) }
{
    for heard in members {
        push_heard(text, heard, written)?;
    }
    Ok(())
}

/// Puts the line of what was released behind a text.
fn push_released(text: &mut String, released: &Released) -> Result<(), AllocError>
    ensures { OnOk result (string_bytes text.new ≡ string_bytes text.old ++ released_text released.now) }
{
    if released.count == 0 {
        text.push_str("released nothing\n")
    } else {
        writeln!(
            text,
            "released {}, the greatest {}",
            released.count, released.greatest
        )
    }
}

/// Puts a number under way behind a text, and behind what stands before it.
fn push_one(text: &mut String, before: &str, busy: &Busy) -> Result<(), AllocError>
    ensures { OnOk result (string_bytes text.new ≡ string_bytes text.old ++ (before.now ++ busy_text busy.now)) }
{
    write!(
        text,
        "{before}{} {} ballot {}.{}",
        busy.number,
        busy.purpose.word(),
        busy.round,
        busy.owner
    )
}

/// Puts the numbers under way behind the first of them.
fn push_more(text: &mut String, busy: &[Busy]) -> Result<(), AllocError>
    ensures { OnOk result (string_bytes text.new ≡ string_bytes text.old ++ flat_map next_busy busy.now) }
{
    for busy in busy {
        push_one(text, ", ", busy)?;
    }
    Ok(())
}

/// Puts the line of what is under way behind a text.
fn push_busy(text: &mut String, busy: &[Busy]) -> Result<(), AllocError>
    ensures { OnOk result (string_bytes text.new ≡ string_bytes text.old ++ busy_line busy.now) }
{
    let Some((first, rest)) = busy.split_first() else {
        return text.push_str("under way nothing\n");
    };
    push_one(text, "under way ", first)?;
    push_more(text, rest)?;
    text.push_str("\n")
}

/// Puts a range behind a text.
fn push_span(text: &mut String, span: &NumberSpan) -> Result<(), AllocError>
    ensures { OnOk result (string_bytes text.new ≡ string_bytes text.old ++ span_text span.now) }
{
    if span.first == span.last {
        write!(text, " {}", span.first)
    } else {
        write!(text, " {}-{}", span.first, span.last)
    }
}

/// Puts ranges behind a text.
fn push_spans(text: &mut String, spans: &[NumberSpan]) -> Result<(), AllocError>
    ensures { OnOk result (string_bytes text.new ≡ string_bytes text.old ++ flat_map span_text spans.now) }
{
    for span in spans {
        push_span(text, span)?;
    }
    Ok(())
}

/// Puts the line of what is missing behind a text.
fn push_missing(
    text: &mut String,
    missing: &Option<Missing>,
    written: &Moment,
) -> Result<(), AllocError>
    ensures { OnOk result (string_bytes text.new ≡ string_bytes text.old ++ missing_line written.now missing.now) }
{
    let Some(missing) = missing else {
        return text.push_str("missing nothing\n");
    };
    text.push_str("missing")?;
    push_spans(text, missing.spans.as_slice())?;
    let mark = if missing.more { " .." } else { "" };
    let since = ShownText {
        written: *written,
        moment: missing.since,
    };
    writeln!(text, "{mark} since {since}")
}

/// Puts the line of files behind a text.
fn push_offers(text: &mut String, status: &Status) -> Result<(), AllocError>
    ensures { OnOk result (string_bytes text.new ≡ string_bytes text.old ++ offers_text status.now.offers status.now.unwritten) }
{
    let offers = status.offers;
    writeln!(
        text,
        "offers {} waiting, {} lost, {} refused; releases {} waiting to be written",
        offers.waiting, offers.lost, offers.refused, status.unwritten
    )
}

/// Whether the line of one of these members tells of its rows.
fn tell_of_rows(members: &[HeardMember]) -> bool
    ensures { result ≡ list_any (λ h. h.is_older) members.now }
{
    members.iter().any(|heard| heard.is_older)
}

/// The form of the lines of a status with these members: an earlier version of the program reads form 1 alone.
fn form_of(members: &[HeardMember]) -> u8
    ensures { result ≡ form_of members.now }
{
    if tell_of_rows(members) { 2 } else { 1 }
}

/// Puts the last line behind a text.
fn push_end(text: &mut String, written: &Moment, form: u8) -> Result<(), AllocError>
    ensures { OnOk result (string_bytes text.new ≡ string_bytes text.old ++ end_text written.now form) }
{
    writeln!(text, "written {written}, form {form}")
}

/// Puts the lines of a status behind a text.
fn push_lines(text: &mut String, status: &Status) -> Result<(), AllocError>
    ensures { OnOk result (string_bytes text.new ≡ string_bytes text.old ++ status_text status.now) }
{
    push_head(text, status)?;
    push_members(text, status.members.as_slice(), &status.written)?;
    push_released(text, &status.released)?;
    push_busy(text, status.busy.as_slice())?;
    push_missing(text, &status.missing, &status.written)?;
    push_offers(text, status)?;
    let form = form_of(status.members.as_slice());
    push_end(text, &status.written, form)?;
    Ok(())
}

/// The text of a status.
///
/// # Errors
///
/// Out of memory.
pub fn text_of(alloc: Global, status: &Status) -> Result<String, AllocError>
    ensures { IfOk result (λ t. string_bytes t ≡ status_text status.now) }
{
    let mut text = String::new(alloc);
    push_lines(&mut text, status)?;
    Ok(text)
}
