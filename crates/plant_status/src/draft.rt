//! What a text says that may be that of a status. The words between the numbers are passed over, and what it lacks is 0: whoever reads so
//! compares the text that the status then has.

use crate::moment::Moment;
use crate::numbers::{numbers_of, short, small};
use crate::status::{
    Busy, HeardMember, Missing, NumberSpan, OfferCounts, Purpose, Released, StationId, Status,
};
use crate::writing::OLDER;
use std::alloc::{AllocError, Global};

/// What stands behind these words, to the end of their line; nothing where they do not stand there.
fn behind<'t>(text: &'t str, words: &str) -> &'t str {
    let Some((_, rest)) = text.split_once(words) else {
        return "";
    };
    match rest.split_once('\n') {
        Some((line, _)) => line,
        None => rest,
    }
}

/// A moment with its day, as `2026-11-26T20:51:07Z`.
fn moment_of(text: &str) -> Moment {
    let [year, month, day, hour, minute, second, ..] = numbers_of(text);
    Moment {
        year: short(year),
        month: small(month),
        day: small(day),
        hour: small(hour),
        minute: small(minute),
        second: small(second),
    }
}

/// A moment in what was written at another: where no day stands, on the same one.
fn shown_of(text: &str, written: &Moment) -> Moment {
    if text.contains('T') {
        return moment_of(text);
    }
    let [hour, minute, second, ..] = numbers_of(text);
    Moment {
        hour: small(hour),
        minute: small(minute),
        second: small(second),
        ..*written
    }
}

/// Which station it is.
fn station_of(text: &str) -> StationId {
    let [member, count, circuit, layout, ..] = numbers_of(behind(text, "station "));
    StationId {
        member: small(member),
        count: small(count),
        circuit: short(circuit),
        layout: small(layout),
    }
}

/// How many numbers were released, and the greatest of them.
fn released_of(text: &str) -> Released {
    let [count, greatest, ..] = numbers_of(behind(text, "\nreleased "));
    Released { count, greatest }
}

/// What stands in the line of files: those among the offers, and how many releases wait to be written.
fn files_of(text: &str) -> (OfferCounts, u32) {
    let [waiting, lost, refused, unwritten, ..] = numbers_of(behind(text, "\noffers "));
    let offers = OfferCounts {
        waiting,
        lost,
        refused,
    };
    (offers, unwritten)
}

/// What the line of a member says.
fn heard_of(line: &str, written: &Moment) -> HeardMember {
    let [member, ..] = numbers_of(line);
    let (heard, is_older) = match line.strip_suffix(OLDER) {
        Some(heard) => (heard, true),
        None => (line, false),
    };
    let at = match heard.split_once(" heard at ") {
        Some((_, shown)) => Some(shown_of(shown, written)),
        None => None,
    };
    HeardMember {
        member: small(member),
        at,
        is_older,
    }
}

/// What the lines of members say.
fn members_of(alloc: Global, text: &str, written: &Moment) -> Result<Vec<HeardMember>, AllocError> {
    let mut members = Vec::new(alloc);
    for line in text.split('\n') {
        if line.starts_with("member ") {
            members.push(heard_of(line, written))?;
        }
    }
    Ok(members)
}

/// A number under way, as `13 seek ballot 4.2`.
fn busy_of(text: &str) -> Busy {
    let [number, round, owner, ..] = numbers_of(text);
    let purpose = if text.contains("seek") {
        Purpose::Seek
    } else {
        Purpose::Offer
    };
    Busy {
        number,
        purpose,
        round,
        owner: small(owner),
    }
}

/// The numbers under way, a comma between two. Each has a ballot, with a point; `nothing` has none.
fn all_busy_of(alloc: Global, line: &str) -> Result<Vec<Busy>, AllocError> {
    let mut all = Vec::new(alloc);
    for told in line.split(',') {
        if told.contains('.') {
            all.push(busy_of(told))?;
        }
    }
    Ok(all)
}

/// A range, as `44-56`; of one number, as `42`.
fn span_of(word: &str) -> NumberSpan {
    let [first, second, ..] = numbers_of(word);
    let last = if word.contains('-') { second } else { first };
    NumberSpan { first, last }
}

/// Ranges, a space between two.
fn spans_of(alloc: Global, told: &str) -> Result<Vec<NumberSpan>, AllocError> {
    let mut spans = Vec::new(alloc);
    for word in told.split(' ') {
        spans.push(span_of(word))?;
    }
    Ok(spans)
}

/// What the line of what is missing says, behind its first word.
fn missing_of(alloc: Global, line: &str, written: &Moment) -> Result<Option<Missing>, AllocError> {
    let Some((told, since)) = line.split_once(" since ") else {
        return Ok(None);
    };
    let spans = told.strip_suffix(" ..").unwrap_or(told);
    Ok(Some(Missing {
        spans: spans_of(alloc, spans)?,
        more: told.ends_with(" .."),
        since: shown_of(since, written),
    }))
}

/// The status of which a text may tell.
pub(crate) fn drafted(alloc: Global, text: &str) -> Result<Status, AllocError> {
    let written = moment_of(behind(text, "\nwritten "));
    let since = moment_of(behind(text, " since "));
    let (offers, unwritten) = files_of(text);
    let members = members_of(alloc, text, &written)?;
    let busy = all_busy_of(alloc, behind(text, "\nunder way "))?;
    let missing = missing_of(alloc, behind(text, "\nmissing "), &written)?;
    Ok(Status {
        station: station_of(text),
        since,
        members,
        released: released_of(text),
        busy,
        missing,
        offers,
        unwritten,
        written,
    })
}
