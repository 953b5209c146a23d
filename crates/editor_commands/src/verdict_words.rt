//! The words of a verdict.

ghost use Rattle.std.specs.Prelude.{◌≡◌, IfOk, string_bytes};
ghost use Rattle.slug_reader.specs.Positions.{first, last};
ghost use Rattle.line_check.specs.Slugs.{band_width};
ghost use Rattle.editor_commands.specs.Report.{fault_words, justified_words, filled_words, verdict_words};

use line_check::{Cause, Kind, SetFault, Slug, Sort};
use line_fit::Verdict;
use std::alloc::{AllocError, Global};

/// The words of a fault; its line stands before them in its row.
pub(crate) fn fault_words(alloc: Global, fault: SetFault) -> Result<String, AllocError>
    ensures { IfOk result (λ t. string_bytes t ≡ fault_words fault) }
{
    let at = fault.at;
    match fault.cause {
        Cause::UnknownCode => format!(in alloc; "unknown-code {at}"),
        Cause::NoWidth => format!(in alloc; "no-width {at}"),
        Cause::Unfinished => String::from_str(alloc, "unfinished"),
        Cause::Overset { over } => format!(in alloc; "overset {over}"),
        Cause::Loose { under } => format!(in alloc; "loose {under}"),
    }
}

/// The width of a band.
fn band_width(sort: &Sort) -> Option<u16>
    ensures { result ≡ band_width sort.now }
{
    match sort {
        Sort::Band { width } => Some(*width),
        _ => None,
    }
}

/// The width of the first band of a slug.
fn first_band(sorts: &[Sort]) -> Option<u16>
    ensures { result ≡ first band_width sorts.now }
{
    let mut found = None;
    for sort in sorts {
        found = found.or(band_width(sort));
    }
    found
}

/// The width of the last.
fn last_band(sorts: &[Sort]) -> Option<u16>
    ensures { result ≡ last band_width sorts.now }
{
    let mut found = None;
    for sort in sorts {
        found = band_width(sort).or(found);
    }
    found
}

/// The words of a justified slug, whose first and last band are this wide.
fn justified_words(
    alloc: Global,
    first: Option<u16>,
    last: Option<u16>,
) -> Result<String, AllocError>
    ensures { IfOk result (λ t. string_bytes t ≡ justified_words first last) }
{
    match (first, last) {
        (Some(widest), Some(narrowest)) => {
            if widest == narrowest {
                format!(in alloc; "J {narrowest}")
            } else {
                format!(in alloc; "J {narrowest}+")
            }
        }
        _ => String::from_str(alloc, "J"),
    }
}

/// The words of a slug: how it fills the measure.
fn filled_words(alloc: Global, slug: &Slug) -> Result<String, AllocError>
    ensures { IfOk result (λ t. string_bytes t ≡ filled_words slug.now.kind slug.now) }
{
    let blank = u32::from(slug.left) + u32::from(slug.right);
    match slug.kind {
        Kind::J => {
            let sorts = slug.items.as_slice();
            justified_words(alloc, first_band(sorts), last_band(sorts))
        }
        Kind::L => format!(in alloc; "L {blank}"),
        Kind::C => format!(in alloc; "C {blank}"),
        Kind::R => format!(in alloc; "R {blank}"),
    }
}

/// The words of a verdict.
pub(crate) fn verdict_words(alloc: Global, verdict: &Verdict) -> Result<String, AllocError>
    ensures { IfOk result (λ t. string_bytes t ≡ verdict_words verdict.now) }
{
    match verdict {
        Verdict::Nothing => String::from_str(alloc, "nothing"),
        Verdict::Faulty(fault) => fault_words(alloc, *fault),
        Verdict::Sets(slug) => filled_words(alloc, slug),
    }
}
